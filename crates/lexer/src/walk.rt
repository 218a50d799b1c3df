//! The walk over a text, from token to token.
ghost use Rattle.std.specs.Prelude.{◌≡◌, ◌-◌, ◌<◌, ◌≤◌, ◌⊎◌, length, drop, MatchOption};
ghost use Rattle.std.specs.Iterator.{at_most};
ghost use Rattle.std.specs.List.{prefix_len};
ghost use Rattle.lexer.specs.Token.{blank, Stuck, First};
ghost use Rattle.lexer.specs.Walk.{Gives, solid_from};

use super::piece::first_token;
use super::{MOST_TOKENS, Token};

/// Whether the byte stands between tokens and belongs to none.
fn is_blank(b: u8) -> bool
    ensures { result ≡ blank b }
{
    matches!(b, b' ' | b'\t' | b'\n' | b'\r')
}

/// How many blanks the text begins with.
fn blanks(text: &[u8]) -> usize
    ensures { result ≡ prefix_len blank text.now }
{
    text.iter().take_while(|b| is_blank(**b)).count()
}

/// The tokens of a text, each with the place where it begins. Where the text can't be cut further, or has too many, that place comes with no token, and is the last.
#[derive(Drop)]
pub(crate) struct Tokens<'a> {
    text: &'a [u8],
    /// Where the walk goes on.
    place: usize,
    /// How many tokens it has passed.
    count: u64,
    ghost within: { place ≤ length text.now },
}

impl<'a> Tokens<'a> {
    /// The walk where the text begins.
    pub(crate) fn new(text: &'a [u8]) -> Tokens<'a>
        ensures text { result.text.now ≡ text.now }
        ensures place { result.place ≡ 0 }
        ensures count { result.count ≡ 0 }
    {
        Tokens {
            text,
            place: 0,
            count: 0,
        }
    }

    /// Where the next piece begins; the text's length where there is none.
    pub(crate) fn solid(&self) -> usize
        ensures within { result ≤ length self.now.text.now }
        ensures is { result ≡ solid_from self.now.text.now self.now.place }
    {
        self.place + blanks(&self.text[self.place..])
    }

    /// The token at a place and its length. A piece that is one too many is not read, however long it is.
    fn token_at(&self, place: usize) -> Option<(Token, usize)>
        requires { place ≤ length self.now.text.now }
        ensures { MatchOption result ((4096 ≤ self.now.count) ⊎ Stuck (drop place self.now.text.now)) (λ p. (self.now.count < 4096) × First (drop place self.now.text.now) p.0 p.1) }
    {
        if self.count >= MOST_TOKENS {
            return None;
        }
        first_token(&self.text[place..])
    }
}

impl<'a> Iterator for Tokens<'a> {
    type Item = (usize, Option<Token>);

    ghost next_gives = { λ s r t. (t.text ≡ s.text) × Gives s.text.now s.place s.count r t.place t.count };

    ghost remaining = { λ s. at_most (length s.text.now - s.place) };

    // A hint alone: without it what a step answers goes through memory.
    #[inline(always)]
    fn next(&mut self) -> Option<(usize, Option<Token>)> {
        let place = self.solid();
        if place == self.text.len() {
            return None;
        }
        match self.token_at(place) {
            Some((token, length)) => {
                self.place = place + length;
                self.count += 1;
                Some((place, Some(token)))
            }
            None => {
                self.place = self.text.len();
                Some((place, None))
            }
        }
    }
}
