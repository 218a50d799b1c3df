//! Rows of tokens that are spoiled at one place, so that they are no program or no tokens.
use crate::grammar::misfit;
use crate::random::Random;
use crate::token::{Symbol, Token};
use base::Op;
use std::alloc::{AllocError, Global};

/// Pieces of text that are no tokens.
const WRONG: [&str; 12] = [
    "65536",
    "70000",
    "v64",
    "v01",
    "v",
    "1v",
    "If",
    ":",
    "?",
    "ends",
    "99999999999999999999",
    "é",
];

/// Marks and words that are put into a program.
const SYMBOLS: [Symbol; 12] = [
    Symbol::Not,
    Symbol::Open,
    Symbol::Close,
    Symbol::Becomes,
    Symbol::Semicolon,
    Symbol::Comma,
    Symbol::If,
    Symbol::Then,
    Symbol::Else,
    Symbol::Repeat,
    Symbol::Times,
    Symbol::End,
];

/// A token to put into a program.
fn other(random: &mut Random) -> Token {
    match random.below(18) {
        0..=1 => Token::Number(random.word()),
        2..=3 => Token::Name(random.variable()),
        4 => Token::Operator(Op::Sub),
        5 => Token::Operator(Op::And),
        number => Token::Symbol(SYMBOLS[number as usize - 6]),
    }
}

/// The tokens before a place, others, and those from a place on.
fn spliced(
    heap: Global,
    tokens: &[Token],
    front: usize,
    new: &[Token],
    back: usize,
) -> Result<Vec<Token>, AllocError> {
    let front = tokens.iter().take(front);
    let back = tokens.iter().skip(back);
    front.chain(new).chain(back).copied().collect(heap)
}

/// One token is left out, put in or replaced, or the row ends early.
fn changed(random: &mut Random, tokens: &[Token]) -> Result<Vec<Token>, AllocError> {
    let heap = random.heap;
    let count = tokens.len();
    let at = random.below(count as u64) as usize;
    let next = at.saturating_add(1);
    let new = other(random);
    match random.below(5) {
        0 => spliced(heap, tokens, at, &[], next),
        1 => spliced(heap, tokens, at, &[new], at),
        2 => spliced(heap, tokens, at, &[new], next),
        3 => spliced(heap, tokens, at, &[], count),
        _ => spliced(heap, tokens, at, &[Token::Wrong(random.pick(&WRONG))], at),
    }
}

/// Spoils a program: its tokens are none any more, or, where a few tries do not do it, as they were.
pub(crate) fn spoil(random: &mut Random, tokens: Vec<Token>) -> Result<Vec<Token>, AllocError> {
    for _ in 0..8 {
        let spoiled = changed(random, tokens.as_slice())?;
        if misfit(random.heap, spoiled.as_slice())?.is_some() {
            return Ok(spoiled);
        }
    }
    Ok(tokens)
}
