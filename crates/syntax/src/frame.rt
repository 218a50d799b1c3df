//! The frames of the parser's stack.
use super::shape::LIMIT;
use base::Op;

/// As many frames as there are tokens, and one more.
pub(crate) const DEPTH: usize = LIMIT + 1;

/// What is put aside until more of the program is read; trees by their nodes.
#[derive(Clone, Copy)]
pub(crate) enum Frame {
    /// A bracket that is open; the nots before it are the frames below.
    Bracket,
    /// An operator and its left operand.
    RightOf(Op, u16),
    /// A not before an operand.
    Not,
    /// A statement that is whole.
    Done(u16),
    /// The condition of an `if` whose first block is being read.
    ThenIn(u16),
    /// The condition and the first block of an `if` whose second block is being read.
    ElseIn(u16, u16),
    /// The rounds of a `repeat` whose block is being read.
    RepeatIn(u16),
    /// The variable that the expression is assigned to.
    AssignTo(u16),
    /// The expression is the condition of an `if`.
    ConditionIn,
    /// The output and the counter of the delay whose condition the expression is.
    DelayIn(u16, u16),
}
