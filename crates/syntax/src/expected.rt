//! What could come next, for messages.
ghost use Rattle.syntax.specs.Expects.{ExpectsAfter};

use super::state::{Parser, State};
use lexer::TOKEN_ROOM;
use std::fmt;

/// What a program could go on with.
#[derive(Clone, Copy, Debug, PartialEq, Eq)]
pub enum Expected {
    /// A statement, or the word that ends a block.
    Statement,
    /// A number, a name, `not` or a bracket.
    Expression,
    /// An operator, or what ends the expression.
    Operator,
    Assign,
    Number,
    Times,
    Name,
    Comma,
    Semicolon,
}

impl fmt::Display for Expected {
    ghost use Rattle.std.specs.Prelude.{Some};
    ghost use Rattle.syntax.specs.Texts.{expected_text};

    ghost output = { λ e. Some (expected_text e) };

    fn fmt<W: fmt::Write>(&self, f: &mut fmt::Formatter<W>) -> fmt::Result {
        f.write_str(match self {
            Expected::Statement => "a statement",
            Expected::Expression => "an expression",
            Expected::Operator => "an operator or the end of the expression",
            Expected::Assign => "':='",
            Expected::Number => "a number",
            Expected::Times => "'times'",
            Expected::Name => "a name",
            Expected::Comma => "a comma",
            Expected::Semicolon => "a semicolon",
        })
    }
}

impl From<State> for Expected {
    ghost use Rattle.syntax.specs.Expects.{ExpectsIn};

    ghost from_gives = { ExpectsIn };

    /// What a state could go on with.
    fn from(state: State) -> Expected {
        match state {
            State::Statement => Expected::Statement,
            State::NameRead(_) => Expected::Assign,
            State::RepeatRead | State::LengthNext(_, _) => Expected::Number,
            State::RoundsRead(_) => Expected::Times,
            State::DelayRead | State::OutComma(_) => Expected::Name,
            State::OutRead(_) | State::CounterRead(_, _) => Expected::Comma,
            State::Ended => Expected::Semicolon,
            State::Operand => Expected::Expression,
            State::Operated => Expected::Operator,
        }
    }
}

/// What could come at the first token that no program goes on with, or after all tokens; of 4,096 at most.
pub fn expected_at(tokens: &[u16]) -> Expected
    ensures { ExpectsAfter tokens.now result }
{
    let end = TOKEN_ROOM.min(tokens.len());
    let (state, _) = Parser::new().read_all(&tokens[..end]);
    Expected::from(state)
}
