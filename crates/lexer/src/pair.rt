//! Tokens as pairs of numbers, and back.
ghost use Rattle.std.specs.Prelude.{◌≡◌};
ghost use Rattle.lexer.specs.Pairs.{code, mark_of, kind, value, token_of};

use super::text::MARKS;
use super::{Mark, Token};
use base::Op;

// As at `Op`, `number` and `from_number`, and no `From`: the names say what the number is, which `u16::from(mark)` doesn't.
impl Mark {
    /// Its number in a token's pair.
    #[tactic(auto, unfolding(crate::specs::Pairs::code))]
    pub fn number(self) -> u16
        ensures { result ≡ code self }
    {
        self as u16
    }

    /// The mark of a number; from 12 on `End`.
    fn from_number(number: u16) -> Mark
        ensures { result ≡ mark_of number }
    {
        MARKS.get(usize::from(number)).copied().unwrap_or(Mark::End)
    }
}

// No `From` and no `TryFrom`: `token.pair()` says what the two numbers are, and `from_pair` takes them as they lie in a room and never fails.
impl Token {
    /// Its kind, and which of its kind it is.
    pub fn pair(self) -> (u16, u16)
        ensures { result ≡ (kind self, value self) }
    {
        match self {
            Token::Number(n) => (0, n),
            Token::Name(i) => (1, i),
            Token::Operator(op) => (2, op.number()),
            Token::Mark(mark) => (3, mark.number()),
        }
    }

    /// The token of a pair; where the pair is none, some token all the same.
    #[tactic(auto, using(std::proofs::lemmas::Bool::Decides::nat_tests), unfolding(crate::specs::Pairs::token_of))]
    pub fn from_pair(kind: u16, value: u16) -> Token
        ensures { result ≡ token_of kind value }
    {
        match kind {
            0 => Token::Number(value),
            1 => Token::Name(value),
            2 => Token::Operator(Op::from_number(value)),
            _ => Token::Mark(Mark::from_number(value)),
        }
    }
}
