//! Trees spelled as tokens, with a few brackets more than are needed.
ghost use Rattle.std.specs.Prelude.{◌≤◌};

use crate::random::Random;
use crate::token::{Symbol, Token};
use crate::tree::{Delay, Expr, Stmt};
use base::Op;
use std::alloc::AllocError;

/// How tightly an operator binds.
fn binds(op: Op) -> u8
    ensures { result ≤ 5 }
{
    match op {
        Op::Mul | Op::Div => 5,
        Op::Add | Op::Sub => 4,
        Op::Less | Op::Equal => 3,
        Op::And => 2,
        Op::Or => 1,
    }
}

/// How tightly an expression binds.
fn strength(expr: &Expr) -> u8 {
    match expr {
        Expr::Literal(_) | Expr::Variable(_) | Expr::Not(_) => 6,
        Expr::Binary(op, _, _) => binds(*op),
    }
}

/// The tokens so far.
#[derive(Drop)]
pub struct Spelling<'a> {
    tokens: Vec<Token>,
    random: &'a mut Random,
}

impl<'a> Spelling<'a> {
    /// No tokens yet.
    pub(crate) fn new(random: &'a mut Random) -> Spelling<'a> {
        Spelling {
            tokens: Vec::new(random.heap),
            random,
        }
    }

    /// What was written.
    pub(crate) fn into_tokens(self) -> Vec<Token> {
        let Spelling { tokens, random: _ } = self;
        tokens
    }

    /// Marks and words, one after the other.
    fn symbols(&mut self, symbols: &[Symbol]) -> Result<(), AllocError> {
        self.tokens
            .extend(symbols.iter().copied().map(Token::Symbol))
    }

    /// An expression where only one that binds so tightly may stand without brackets.
    fn expr(&mut self, expr: &Expr, least: u8) -> Result<(), AllocError> {
        let brackets = strength(expr) < least || self.random.chance(8);
        if brackets {
            self.symbols(&[Symbol::Open])?;
        }
        match expr {
            Expr::Literal(number) => self.tokens.push(Token::Number(*number))?,
            Expr::Variable(variable) => self.tokens.push(Token::Name(*variable))?,
            Expr::Not(x) => {
                self.symbols(&[Symbol::Not])?;
                self.expr(x, 6)?;
            }
            Expr::Binary(op, x, y) => {
                let level = binds(*op);
                self.expr(x, level)?;
                self.tokens.push(Token::Operator(*op))?;
                self.expr(y, level + 1)?;
            }
        }
        if brackets {
            self.symbols(&[Symbol::Close])?;
        }
        Ok(())
    }

    /// A delay with its semicolon.
    fn delay(&mut self, delay: &Delay) -> Result<(), AllocError> {
        self.symbols(&[Symbol::Delay])?;
        self.tokens.push(Token::Name(delay.output))?;
        self.symbols(&[Symbol::Comma])?;
        self.tokens.push(Token::Name(delay.counter))?;
        self.symbols(&[Symbol::Comma])?;
        self.expr(&delay.condition, 0)?;
        self.symbols(&[Symbol::Comma])?;
        self.tokens.push(Token::Number(delay.length))?;
        self.symbols(&[Symbol::Semicolon])
    }

    /// A statement with its semicolon.
    pub(crate) fn stmt(&mut self, stmt: &Stmt) -> Result<(), AllocError> {
        match stmt {
            Stmt::Skip => Ok(()),
            Stmt::Seq(first, second) => {
                self.stmt(first)?;
                self.stmt(second)
            }
            Stmt::Assign(variable, expr) => {
                self.tokens.push(Token::Name(*variable))?;
                self.symbols(&[Symbol::Becomes])?;
                self.expr(expr, 0)?;
                self.symbols(&[Symbol::Semicolon])
            }
            Stmt::Branch(condition, first, second) => {
                self.symbols(&[Symbol::If])?;
                self.expr(condition, 0)?;
                self.symbols(&[Symbol::Then])?;
                self.stmt(first)?;
                self.symbols(&[Symbol::Else])?;
                self.stmt(second)?;
                self.symbols(&[Symbol::End, Symbol::Semicolon])
            }
            Stmt::Repeat(rounds, body) => {
                self.symbols(&[Symbol::Repeat])?;
                self.tokens.push(Token::Number(*rounds))?;
                self.symbols(&[Symbol::Times])?;
                self.stmt(body)?;
                self.symbols(&[Symbol::End, Symbol::Semicolon])
            }
            Stmt::Delay(delay) => self.delay(delay),
        }
    }
}
