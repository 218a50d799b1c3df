//! How tokens are written.
ghost use Rattle.std.specs.Prelude.{◌≡◌, Some};
ghost use Rattle.lexer.specs.Token.{marking};
ghost use Rattle.lexer.specs.Text.{token_text};

use super::{Mark, Token};
use std::fmt;

/// All marks, in the order of their numbers.
pub(crate) const MARKS: [Mark; 13] = [
    Mark::Not,
    Mark::Open,
    Mark::Close,
    Mark::Assign,
    Mark::Semicolon,
    Mark::Comma,
    Mark::If,
    Mark::Then,
    Mark::Else,
    Mark::Repeat,
    Mark::Times,
    Mark::Delay,
    Mark::End,
];

impl Mark {
    /// The word or the sign that it is.
    fn text(self) -> &'static str
        ensures { result.now ≡ marking self }
    {
        match self {
            Mark::Not => "not",
            Mark::Open => "(",
            Mark::Close => ")",
            Mark::Assign => ":=",
            Mark::Semicolon => ";",
            Mark::Comma => ",",
            Mark::If => "if",
            Mark::Then => "then",
            Mark::Else => "else",
            Mark::Repeat => "repeat",
            Mark::Times => "times",
            Mark::Delay => "delay",
            Mark::End => "end",
        }
    }
}

impl fmt::Display for Mark {
    ghost output = { λ mark. Some (marking mark) };

    fn fmt<W: fmt::Write>(&self, f: &mut fmt::Formatter<W>) -> fmt::Result {
        f.write_str(self.text())
    }
}

impl fmt::Display for Token {
    ghost output = { λ token. Some (token_text token) };

    fn fmt<W: fmt::Write>(&self, f: &mut fmt::Formatter<W>) -> fmt::Result {
        match *self {
            Token::Number(n) => write!(f, "{n}"),
            Token::Name(i) => write!(f, "v{i}"),
            Token::Operator(op) => write!(f, "{op}"),
            Token::Mark(mark) => write!(f, "{mark}"),
        }
    }
}
