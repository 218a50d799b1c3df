//! Pairs of numbers that are tokens.
ghost use Rattle.std.specs.Prelude.{◌≡◌, Decides};
ghost use Rattle.lexer.specs.Pairs.{shaped};
ghost use Rattle.syntax.specs.Shape.{IsFine, Checked};

use lexer::MOST_TOKENS;

/// More tokens than these are not taken.
pub(crate) const LIMIT: usize = MOST_TOKENS as usize;

/// Whether a pair of numbers is a token. Pairs of numbers in a lent room are a rule of the project, and `Token::from_pair`
/// takes them all.
fn is_shaped(kind: u16, value: u16) -> bool
    ensures { result ≡ shaped kind value }
{
    match kind {
        0 => true,
        1 => value < 64,
        2 => value < 8,
        3 => value < 13,
        _ => false,
    }
}

/// Whether a pair is whole, a token, and not one too many.
fn is_fine(at: usize, pair: &[u16]) -> bool
    ensures { Decides result (IsFine at pair.now) }
{
    at < LIMIT && pair.len() == 2 && is_shaped(pair[0], pair[1])
}

/// The first pair that is no token, that is not whole, or that is one too many.
pub(crate) fn misshapen(tokens: &[u16]) -> Option<u64>
    ensures { Checked tokens.now result }
{
    for (at, pair) in tokens.chunks(2).enumerate() {
        if !is_fine(at, pair) {
            return Some(at as u64);
        }
    }
    None
}
