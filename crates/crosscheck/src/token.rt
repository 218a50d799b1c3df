//! Tokens of the language as this crate writes them.
use crate::variable::Variable;
use base::Op;
use std::fmt;

/// A mark or a word that is always the same: those of the language once more, since this crate takes nothing of the lexer.
#[derive(Clone, Copy, PartialEq)]
pub enum Symbol {
    Not,
    Open,
    Close,
    Becomes,
    Semicolon,
    Comma,
    If,
    Then,
    Else,
    Repeat,
    Times,
    Delay,
    End,
}

impl Symbol {
    /// How it is written.
    fn text(self) -> &'static str {
        match self {
            Symbol::Not => "not",
            Symbol::Open => "(",
            Symbol::Close => ")",
            Symbol::Becomes => ":=",
            Symbol::Semicolon => ";",
            Symbol::Comma => ",",
            Symbol::If => "if",
            Symbol::Then => "then",
            Symbol::Else => "else",
            Symbol::Repeat => "repeat",
            Symbol::Times => "times",
            Symbol::Delay => "delay",
            Symbol::End => "end",
        }
    }
}

/// How an operator is written, as docs/LANGUAGE.md has it: the product's own texts are what is tried.
fn operator_text(op: Op) -> &'static str {
    match op {
        Op::Add => "+",
        Op::Sub => "-",
        Op::Mul => "*",
        Op::Div => "/",
        Op::Less => "<",
        Op::Equal => "=",
        Op::And => "and",
        Op::Or => "or",
    }
}

/// A token, or a piece of text in the place of one.
#[derive(Clone, Copy)]
pub enum Token {
    Number(u16),
    Name(Variable),
    Operator(Op),
    Symbol(Symbol),
    /// A piece of text that is no token.
    Wrong(&'static str),
}

impl Token {
    /// Can it stand beside a letter or a digit?
    fn stands_close(self) -> bool {
        match self {
            Token::Operator(op) => !matches!(op, Op::And | Op::Or),
            Token::Symbol(symbol) => matches!(
                symbol,
                Symbol::Open | Symbol::Close | Symbol::Becomes | Symbol::Semicolon | Symbol::Comma
            ),
            Token::Number(_) | Token::Name(_) | Token::Wrong(_) => false,
        }
    }

    /// Is it no token?
    pub(crate) fn is_wrong(self) -> bool {
        matches!(self, Token::Wrong(_))
    }

    /// Must there be a blank between it and the next one?
    pub(crate) fn parts_from(self, next: Token) -> bool {
        self.is_wrong() || next.is_wrong() || !self.stands_close() && !next.stands_close()
    }
}

/// The text of a token.
impl fmt::Display for Token {
    fn fmt<W: fmt::Write>(&self, f: &mut fmt::Formatter<W>) -> fmt::Result {
        match *self {
            Token::Number(number) => write!(f, "{number}"),
            Token::Name(variable) => write!(f, "{variable}"),
            Token::Operator(op) => f.write_str(operator_text(op)),
            Token::Symbol(symbol) => f.write_str(symbol.text()),
            Token::Wrong(text) => f.write_str(text),
        }
    }
}
