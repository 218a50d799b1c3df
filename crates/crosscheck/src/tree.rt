//! Programs as trees of this crate's own, made at random and not read from a text.
use crate::variable::Variable;
use base::Op;
use std::alloc::{AllocError, Global};

/// An expression.
#[derive(Drop)]
pub enum Expr {
    Literal(u16),
    Variable(Variable),
    Not(Box<Expr>),
    Binary(Op, Box<Expr>, Box<Expr>),
}

impl Expr {
    /// `not` before it.
    pub(crate) fn negated(self, heap: Global) -> Result<Expr, AllocError> {
        Ok(Expr::Not(Box::new(heap, self)?))
    }

    /// An operation on two expressions.
    pub(crate) fn binary(
        heap: Global,
        op: Op,
        left: Expr,
        right: Expr,
    ) -> Result<Expr, AllocError> {
        let left = Box::new(heap, left)?;
        let right = Box::new(heap, right)?;
        Ok(Expr::Binary(op, left, right))
    }
}

/// The output becomes 1 once the condition has been true for a length of time, as the counter tells.
#[derive(Drop)]
pub struct Delay {
    pub output: Variable,
    pub counter: Variable,
    pub condition: Expr,
    pub length: u16,
}

/// A statement, or several.
#[derive(Drop)]
pub enum Stmt {
    Skip,
    Seq(Box<Stmt>, Box<Stmt>),
    Assign(Variable, Expr),
    Branch(Expr, Box<Stmt>, Box<Stmt>),
    Repeat(u16, Box<Stmt>),
    Delay(Delay),
}

impl Stmt {
    /// It and then the next one.
    pub(crate) fn then(self, heap: Global, next: Stmt) -> Result<Stmt, AllocError> {
        let first = Box::new(heap, self)?;
        let second = Box::new(heap, next)?;
        Ok(Stmt::Seq(first, second))
    }

    /// A choice between two.
    pub(crate) fn branch(
        heap: Global,
        condition: Expr,
        first: Stmt,
        second: Stmt,
    ) -> Result<Stmt, AllocError> {
        let first = Box::new(heap, first)?;
        let second = Box::new(heap, second)?;
        Ok(Stmt::Branch(condition, first, second))
    }

    /// It so many times over.
    pub(crate) fn repeated(self, heap: Global, rounds: u16) -> Result<Stmt, AllocError> {
        Ok(Stmt::Repeat(rounds, Box::new(heap, self)?))
    }
}
