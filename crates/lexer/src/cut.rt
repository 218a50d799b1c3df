//! What walks over a text find: how many tokens it has, where one begins, and their pairs.
ghost use Rattle.std.specs.Prelude.{ℕ, ◌*◌, ◌≤◌, length};
ghost use Rattle.lexer.specs.Outcome.{Counted, Whole, Written, PlaceOfToken, EndsIfFewer};

use super::walk::Tokens;
use base::Refusal;

/// How many tokens the text has.
pub(crate) fn count(text: &[u8]) -> Result<u64, Refusal>
    ensures { Counted text.now result }
{
    let mut count = 0;
    for (place, token) in Tokens::new(text) {
        token.ok_or(Refusal::Token(place as u64))?;
        count += 1;
    }
    Ok(count)
}

/// Where token `index` begins; the text's length where there are fewer.
pub(crate) fn place(text: &[u8], index: u64) -> usize
    ensures begins { PlaceOfToken text.now index result }
    ensures fewer { EndsIfFewer text.now index result }
{
    let mut tokens = Tokens::new(text);
    if let Some(before) = index.checked_sub(1) {
        if tokens.nth(before as usize).is_none() {
            return text.len();
        }
    }
    // The token itself is not read, however long it is.
    tokens.solid()
}

/// Writes the tokens of a text that can be cut to the front of a room that holds them, as pairs of numbers in a lent room:
/// a rule of the project. How many there are is known to the proof alone.
pub(crate) fn write(text: &[u8], room: &mut [u16])
    requires { (n : ℕ) × Whole text.now n × (2 * n ≤ length room.old) }
    ensures { (n : ℕ) → Whole text.now n → Written text.now room.old room.new n }
{
    for (i, (_, token)) in Tokens::new(text).enumerate() {
        let Some(token) = token else { unreachable!() };
        let (kind, value) = token.pair();
        room[2 * i] = kind;
        room[2 * i + 1] = value;
    }
}
