//! The laws of the whole: what is promised of every program, project and script, in the words of those who use them. Each function's contract is one law.
#![tactic(auto)]

ghost use Rattle.laws.specs.Costs.{WithinCost, WithinHeights, ListedWithin, LoadedWithin, NeedsArePrinted};
ghost use Rattle.laws.specs.Examples.{ExamplesComeOut};
ghost use Rattle.laws.specs.Histories.{Constants, UnreadUnseen, LampStays};
ghost use Rattle.laws.specs.Language.{WordsOfWords, UnreadIsNothing, UnassignedStays};
ghost use Rattle.laws.specs.Texts.{TakenWords, ToldWords, OneReading, OneAnswer, SamePrint, SamePlay, PrintIsTaken, ToldInOrder};

/// A program whose literals are words makes words of words, however much time went by.
pub fn words_of_words()
    ensures { WordsOfWords }
{}

/// What no expression names and no delay counts in makes no difference to what the others become.
pub fn unread_is_nothing()
    ensures { UnreadIsNothing }
{}

/// What is never assigned stays as it was.
pub fn unassigned_stays()
    ensures { UnassignedStays }
{}

/// After every history that brings words, the values, the outputs and the kept values of a project that is taken are words.
pub fn words_stay_words()
    ensures { TakenWords }
{}

/// Every value that a player tells is a word, whatever the script says.
pub fn told_words()
    ensures { ToldWords }
{}

/// A project's text says one thing, and what is played of it is settled by the two texts.
pub fn one_reading()
    ensures reading { OneReading }
    ensures answer { OneAnswer }
{}

/// Two texts that print the same tree, under headers that say the same, behave the same in every row of events; and what is printed is taken again.
pub fn same_print_same_play()
    ensures told { SamePrint }
    ensures answer { SamePlay }
    ensures taken { PrintIsTaken }
{}

/// Projects and scripts with what is told of them, each by computation from the definitions: a motor, a sum, a delay, a quotient, a choice, a counter through power cuts.
pub fn examples_come_out()
    ensures { ExamplesComeOut }
{}

/// A scan takes at most as many steps as a maker prints for its project, and its stacks never grow above the heights that it prints: so it is with the code that is made, listed and played.
pub fn scans_end_within_cost()
    ensures cost { WithinCost }
    ensures heights { WithinHeights }
    ensures listed { ListedWithin }
    ensures loaded { LoadedWithin }
    ensures printed { NeedsArePrinted }
{}

/// A variable that is never assigned, does not come from outside and is never forced is as at first, after every history.
pub fn constants_stay()
    ensures { Constants }
{}

/// What comes in at a point, or is forced on it, makes no difference to anything else, if the program does not read it and it is not kept.
pub fn unread_unseen()
    ensures { UnreadUnseen }
{}

/// A lamp that is lit stays lit until a start or a power cut.
pub fn lamp_stays_lit()
    ensures { LampStays }
{}

/// What is printed of a script's first lines stays what it is, whatever lines come after them.
pub fn told_in_order()
    ensures { ToldInOrder }
{}
