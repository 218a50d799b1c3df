//! Texts brought to the part that a trial is of: tokens, trees, code.
use base::Refusal;
use compiler::make;
use lexer::tokenize;
use syntax::{Tree, parse};

/// The tree of a program's text.
pub(crate) fn parsed(text: &str) -> Result<Tree, Refusal> {
    let mut tokens = [0; 8192];
    let count = tokenize(text, &mut tokens)?;
    parse(&tokens[..2 * count as usize])
}

/// Makes a program's text into code at the front of a room.
pub(crate) fn compiled(text: &str, room: &mut [u16]) -> Result<u64, Refusal> {
    let mut tokens = [0; 8192];
    let count = tokenize(text, &mut tokens)?;
    make(&tokens[..2 * count as usize], room)
}
