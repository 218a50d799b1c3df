//! A text cut into tokens, which are written to a lent room as pairs of numbers.
#![tactic(auto)]

ghost use Rattle.std.specs.Prelude.{◌≡◌};
ghost use Rattle.lexer.specs.Outcome.{Tokenized, PlaceOfToken, EndsIfFewer};
ghost use Rattle.lexer.specs.Laws.{OneWay, OnePlace, RefusedRightly, PlaceInCharacters, BlanksAlike, BlanksBetween, PairsBack, PairIsToken, OnePair, TextIsSpelling};

use base::{Op, Refusal};

mod cut;
mod pair;
mod piece;
mod text;
mod walk;

/// A token that carries nothing: a word or a sign with one spelling.
#[derive(Clone, Copy, Debug, PartialEq, Eq)]
pub enum Mark {
    Not,
    Open,
    Close,
    Assign,
    Semicolon,
    Comma,
    If,
    Then,
    Else,
    Repeat,
    Times,
    Delay,
    End,
}

/// What a text is cut into.
#[derive(Clone, Copy, Debug, PartialEq, Eq)]
pub enum Token {
    Number(u16),
    /// A variable, by its index.
    Name(u16),
    Operator(Op),
    Mark(Mark),
}

/// How many tokens a text has at most.
pub const MOST_TOKENS: u64 = 4096;

/// How many numbers the room for tokens has: a pair for each.
pub const TOKEN_ROOM: usize = 2 * MOST_TOKENS as usize;

/// Where the room stands among the parameters of `tokenize`.
const ROOM_PARAMETER: u64 = 1;

/// Cuts a text into tokens, writes a pair of numbers for each to the front of the room, and answers how many there are.
/// The room has 8,192 numbers. What is refused leaves it as it was.
pub fn tokenize(text: &str, room: &mut [u16]) -> Result<u64, Refusal>
    ensures { Tokenized text.now room.old result room.new }
{
    let bytes = text.as_bytes();
    let n = cut::count(bytes)?;
    if room.len() != TOKEN_ROOM {
        return Err(Refusal::Length(ROOM_PARAMETER));
    }
    cut::write(bytes, room);
    Ok(n)
}

/// Where token `index` of a text begins; the text's length where there are fewer. For messages.
pub fn token_place(text: &str, index: u64) -> usize
    ensures begins { PlaceOfToken text.now index result }
    ensures fewer { EndsIfFewer text.now index result }
{
    cut::place(text.as_bytes(), index)
}

/// A text is cut in at most one way.
pub fn cut_in_one_way()
    ensures { OneWay }
{}

/// A text that is refused can't be cut, and is refused at one place, which counts characters as it counts bytes.
pub fn refused_rightly()
    ensures cut { RefusedRightly }
    ensures place { OnePlace }
    ensures characters { PlaceInCharacters }
{}

/// More blanks, where there is one or between tokens, change nothing.
pub fn blanks_change_nothing()
    ensures alike { BlanksAlike }
    ensures between { BlanksBetween }
{}

/// The pairs say which tokens they were made of, and no other pair says the same.
pub fn pairs_read_back()
    ensures back { PairsBack }
    ensures token { PairIsToken }
    ensures one { OnePair }
{}

/// What is written for a token is a spelling of it.
pub fn text_reads_back()
    ensures { TextIsSpelling }
{}
