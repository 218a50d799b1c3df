//! Words that are numbers, and names with a number such as `v5`.
ghost use Rattle.std.specs.Prelude.{◌≡◌};
ghost use Rattle.base.specs.Numerals.{number_of, name_of};

/// A number up to 2^64 - 1; zeros may lead it, and a sign may not.
pub fn number(word: &str) -> Option<u64>
    ensures { result ≡ number_of word.now }
{
    // `parse` would take a plus.
    if word.starts_with('+') {
        None
    } else {
        word.parse().ok()
    }
}

/// The number of a name such as `v5`: no zero leads it.
pub fn name(word: &str) -> Option<u64>
    ensures { result ≡ name_of word.now }
{
    let digits = word.strip_prefix('v')?;
    if digits.len() > 1 && digits.starts_with('0') {
        None
    } else {
        number(digits)
    }
}
