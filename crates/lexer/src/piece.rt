//! The piece that a text begins with, and the token that it spells.
ghost use Rattle.std.specs.Prelude.{◌≡◌, ℕ, ◌<◌, ◌≤◌, ◌⊎◌, [], ◌∷◌, length, MatchOption};
ghost use Rattle.std.specs.Char.{is_ascii_alphanumeric};
ghost use Rattle.std.specs.List.{prefix_len};
ghost use Rattle.std.specs.Str.Parse.{digits_value, IsNumeral};
ghost use Rattle.lexer.specs.Token.{Spells, Varied, Stuck, First};
ghost use Rattle.lexer.specs.Piece.{piece_length};

use super::{Mark, Token};
use base::{Op, VARIABLES, numerals};
use std::str::from_utf8;

/// The number that a row of digits is, if it is one and at most 65,535.
fn number(word: &str) -> Option<u16>
    ensures { MatchOption result (IsNumeral 10 word.now → digits_value 10 word.now < 65536 → ⊥) (λ n. IsNumeral 10 word.now × (digits_value 10 word.now ≡ n)) }
{
    u16::try_from(numerals::number(word)?).ok()
}

/// The name's index: `v` and a number below 64 with no leading zero.
fn name(word: &str) -> Option<u16>
    ensures { MatchOption result ((i : ℕ) → Spells word.now (Token.Name i) → ⊥) (λ i. Spells word.now (Token.Name i)) }
{
    let index = u16::try_from(numerals::name(word)?).ok()?;
    (usize::from(index) < VARIABLES).then_some(index)
}

/// The token of a sign of one byte.
fn sign(byte: u8) -> Option<Token>
    ensures { MatchOption result ((t : Token) → Spells (byte ∷ []) t → Varied t) (λ t. Spells (byte ∷ []) t) }
{
    match byte {
        b'+' => Some(Token::Operator(Op::Add)),
        b'-' => Some(Token::Operator(Op::Sub)),
        b'*' => Some(Token::Operator(Op::Mul)),
        b'/' => Some(Token::Operator(Op::Div)),
        b'<' => Some(Token::Operator(Op::Less)),
        b'=' => Some(Token::Operator(Op::Equal)),
        b'(' => Some(Token::Mark(Mark::Open)),
        b')' => Some(Token::Mark(Mark::Close)),
        b';' => Some(Token::Mark(Mark::Semicolon)),
        b',' => Some(Token::Mark(Mark::Comma)),
        _ => None,
    }
}

/// The token that is always written as this word, of more bytes than one. By its literals, which are told apart by their
/// lengths first: a search among the texts of all operators and marks took up to 1.9 times as long.
fn fixed(word: &str) -> Option<Token>
    ensures { MatchOption result ((t : Token) → Spells word.now t → (length word.now ≡ 1) ⊎ Varied t) (λ t. Spells word.now t) }
{
    match word {
        "and" => Some(Token::Operator(Op::And)),
        "or" => Some(Token::Operator(Op::Or)),
        "not" => Some(Token::Mark(Mark::Not)),
        ":=" => Some(Token::Mark(Mark::Assign)),
        "if" => Some(Token::Mark(Mark::If)),
        "then" => Some(Token::Mark(Mark::Then)),
        "else" => Some(Token::Mark(Mark::Else)),
        "repeat" => Some(Token::Mark(Mark::Repeat)),
        "times" => Some(Token::Mark(Mark::Times)),
        "delay" => Some(Token::Mark(Mark::Delay)),
        "end" => Some(Token::Mark(Mark::End)),
        _ => None,
    }
}

/// The token that the piece spells: a sign, or what its first byte says that it can be.
fn read_piece(piece: &[u8]) -> Option<Token>
    ensures { MatchOption result ((t : Token) → Spells piece.now t → ⊥) (λ t. Spells piece.now t) }
{
    if let [byte] = piece
        && !byte.is_ascii_alphanumeric()
    {
        return sign(*byte);
    }
    let word = from_utf8(piece).ok()?;
    match piece {
        [b'0'..=b'9', ..] => number(word).map(Token::Number),
        [b'v', ..] => name(word).map(Token::Name),
        _ => fixed(word),
    }
}

/// How many letters and digits the text begins with.
fn word_length(text: &[u8]) -> usize
    ensures { result ≡ prefix_len is_ascii_alphanumeric text.now }
{
    text.iter()
        .take_while(|b| b.is_ascii_alphanumeric())
        .count()
}

/// How long the piece is that the text begins with.
fn piece_length(text: &[u8]) -> usize
    ensures within { result ≤ length text.now }
    ensures is { result ≡ piece_length text.now }
{
    match text {
        [] => 0,
        [first, ..] if first.is_ascii_alphanumeric() => word_length(text),
        [b':', b'=', ..] => 2,
        _ => 1,
    }
}

/// The token that the text begins with, and how long it is. By itself, so that the walk around it is small enough to be put
/// where it is used: a hint alone.
#[inline(never)]
pub(crate) fn first_token(text: &[u8]) -> Option<(Token, usize)>
    ensures { MatchOption result (Stuck text.now) (λ p. First text.now p.0 p.1) }
{
    let length = piece_length(text);
    let token = read_piece(&text[..length])?;
    Some((token, length))
}
