//! The sentences of messages.
ghost use Rattle.std.specs.Prelude.{◌≡◌};
ghost use Rattle.messages.specs.Messages.{header_sentence, limit_text};

use base::Refusal;
use lexer::{MOST_TOKENS, Token, token_place};
use std::alloc::{AllocError, Global};
use syntax::expected_at;

/// What is found at a token's pair, or past the last one.
fn found(heap: Global, tokens: &[u16], at: usize) -> Result<String, AllocError> {
    match tokens.get(at..) {
        Some([kind, value, ..]) => {
            let token = Token::from_pair(*kind, *value);
            format!(in heap; "'{token}'")
        }
        _ => String::from_str(heap, "the end of the text"),
    }
}

/// What could come at a token, and what is found there.
pub(crate) fn mismatch(heap: Global, tokens: &[u16], index: u64) -> Result<String, AllocError> {
    let at = (index as usize).min(tokens.len() / 2) * 2;
    let wanted = expected_at(&tokens[..at]);
    let there = found(heap, tokens, at)?;
    format!(in heap; "expected {wanted}, found {there}")
}

/// The sentence about a header.
pub(crate) fn header_words(refusal: Refusal) -> &'static str
    ensures { result.now ≡ header_sentence refusal }
{
    match refusal {
        Refusal::Token(_) => "this does not belong here in a header",
        _ => "more than 64 variables are kept",
    }
}

/// The sentence about a limit, by the place that its refusal has: a number there, since the list of refusals says so.
pub(crate) fn limit_words(limit: u64) -> &'static str
    ensures { result.now ≡ limit_text limit }
{
    match limit {
        0 => "the program costs more than 20000",
        1 => "the program needs more than 32 values at a time",
        _ => "the program has more than 8 repetitions one in another",
    }
}

/// The sentence about a place in a program's text at which it can't be cut.
pub(crate) fn uncut_words(program: &str, place: usize) -> &'static str {
    if token_place(program, MOST_TOKENS) == place {
        "a program has at most 4096 tokens"
    } else {
        "no token begins here"
    }
}
