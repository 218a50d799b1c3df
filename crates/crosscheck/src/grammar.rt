//! Which rows of tokens are programs, written from docs/LANGUAGE.md: what may come next is kept as a pile of goals.
use crate::token::{Symbol, Token};
use std::alloc::{AllocError, Global};

/// What a program still has to have.
#[derive(Clone, Copy)]
enum Goal {
    /// This mark or word.
    Symbol(Symbol),
    /// Any number.
    Number,
    /// Any name.
    Name,
    /// A number, a name, an expression in brackets, or `not` before one of these.
    Operand,
    /// Operators with operands, or none.
    Operations,
    /// Statements, or none.
    Statements,
}

/// What follows an opening bracket, the last first.
const BRACKETS: [Goal; 3] = [Goal::Symbol(Symbol::Close), Goal::Operations, Goal::Operand];

/// What follows an operator.
const OPERATION: [Goal; 2] = [Goal::Operations, Goal::Operand];

/// What follows the name at the beginning of an assignment.
const ASSIGNMENT: [Goal; 5] = [
    Goal::Statements,
    Goal::Symbol(Symbol::Semicolon),
    Goal::Operations,
    Goal::Operand,
    Goal::Symbol(Symbol::Becomes),
];

/// What follows `if`.
const CHOICE: [Goal; 9] = [
    Goal::Statements,
    Goal::Symbol(Symbol::Semicolon),
    Goal::Symbol(Symbol::End),
    Goal::Statements,
    Goal::Symbol(Symbol::Else),
    Goal::Statements,
    Goal::Symbol(Symbol::Then),
    Goal::Operations,
    Goal::Operand,
];

/// What follows `repeat`.
const REPETITION: [Goal; 6] = [
    Goal::Statements,
    Goal::Symbol(Symbol::Semicolon),
    Goal::Symbol(Symbol::End),
    Goal::Statements,
    Goal::Symbol(Symbol::Times),
    Goal::Number,
];

/// What follows `delay`.
const TIMER: [Goal; 10] = [
    Goal::Statements,
    Goal::Symbol(Symbol::Semicolon),
    Goal::Number,
    Goal::Symbol(Symbol::Comma),
    Goal::Operations,
    Goal::Operand,
    Goal::Symbol(Symbol::Comma),
    Goal::Name,
    Goal::Symbol(Symbol::Comma),
    Goal::Name,
];

impl Goal {
    /// May there be nothing of it?
    fn is_optional(self) -> bool {
        matches!(self, Goal::Operations | Goal::Statements)
    }

    /// What follows a token that it begins with, the last first; none if it begins with another one.
    fn after(self, token: Token) -> Option<&'static [Goal]> {
        match (self, token) {
            (Goal::Number | Goal::Operand, Token::Number(_)) => Some(&[]),
            (Goal::Name | Goal::Operand, Token::Name(_)) => Some(&[]),
            (Goal::Symbol(wanted), Token::Symbol(symbol)) if wanted == symbol => Some(&[]),
            (Goal::Operand, Token::Symbol(Symbol::Not)) => Some(&[Goal::Operand]),
            (Goal::Operand, Token::Symbol(Symbol::Open)) => Some(&BRACKETS),
            (Goal::Operations, Token::Operator(_)) => Some(&OPERATION),
            (Goal::Statements, Token::Name(_)) => Some(&ASSIGNMENT),
            (Goal::Statements, Token::Symbol(Symbol::If)) => Some(&CHOICE),
            (Goal::Statements, Token::Symbol(Symbol::Repeat)) => Some(&REPETITION),
            (Goal::Statements, Token::Symbol(Symbol::Delay)) => Some(&TIMER),
            _ => None,
        }
    }
}

/// Goes on by a token; `false` if no program does.
fn goes_on(goals: &mut Vec<Goal>, token: Token) -> Result<bool, AllocError> {
    while let Some(goal) = goals.pop() {
        if let Some(more) = goal.after(token) {
            goals.extend_from_slice(more)?;
            return Ok(true);
        }
        if !goal.is_optional() {
            return Ok(false);
        }
    }
    Ok(false)
}

/// The first token at which no program goes on so, or the number of tokens where they stop too early; none if they are a program.
pub(crate) fn misfit(heap: Global, tokens: &[Token]) -> Result<Option<usize>, AllocError> {
    let mut goals = vec![in heap; Goal::Statements]?;
    for (place, token) in tokens.iter().enumerate() {
        if !goes_on(&mut goals, *token)? {
            return Ok(Some(place));
        }
    }
    let may_end = goals.iter().all(|goal| goal.is_optional());
    Ok((!may_end).then_some(tokens.len()))
}
