//! A line read word by word: numbers, names of variables and keywords.
ghost use Rattle.std.specs.Prelude.{◌≡◌, ℕ, List, Option, ◌+◌, ◌<◌, false, [], ◌++◌, length, slice_index};
ghost use Rattle.lines.specs.Words.{blank, word as word_at, words_on};
ghost use Rattle.lines.specs.Reading.{took, variable_of, value_of, left, ended, first_place, take_word, take, take_number, take_name, take_variable, take_value, take_keyword, take_end, Makes, Answers};
ghost use Rattle.std.specs.Fn.{FnReturnsAt};
ghost use Rattle.lines.specs.declared.words.ReadError.TheVariants.{Memory};

use crate::line::{Line, Word};
use base::VARIABLES;
use base::numerals::name;
pub use base::numerals::number;
use std::alloc::{AllocError, AllocFailed};

/// Why a text is not read: want of memory, or the place of the first word that does not fit.
#[derive(Debug, Drop)]
pub enum ReadError {
    Memory,
    At(usize),
}

impl From<AllocError> for ReadError {
    ghost from_gives = { λ _ r. r ≡ Memory };

    fn from(_e: AllocError) -> ReadError {
        ReadError::Memory
    }
}

impl<T: Drop> From<AllocFailed<T>> for ReadError {
    ghost from_gives = { λ _ r. r ≡ Memory };

    fn from(_e: AllocFailed<T>) -> ReadError {
        ReadError::Memory
    }
}

/// The index of one of the 64 variables.
pub fn variable(word: &str) -> Option<u8>
    ensures { result ≡ variable_of word.now }
{
    u8::try_from(name(word)?)
        .ok()
        .filter(|v| usize::from(*v) < VARIABLES)
}

/// A number up to 65,535.
fn value(word: &str) -> Option<u16>
    ensures { result ≡ value_of word.now }
{
    u16::try_from(number(word)?).ok()
}

/// The first word of a text that begins with no blank, and what follows it; a colon is a word by itself.
fn cut_word(text: &str) -> (&str, &str)
    ensures parts { text.now ≡ result.0.now ++ result.1.now }
    ensures words { (at : ℕ) → 0 < length text.now → blank (slice_index text.now 0) ≡ false → words_on at [] text.now ≡ word_at at result.0.now (words_on (at + length result.0.now) [] result.1.now) }
{
    if text.starts_with(':') {
        return text.split_at(1);
    }
    match text.find([' ', '\t', '\r', ':']) {
        Some(n) => text.split_at(n),
        None => (text, ""),
    }
}

impl<'a> Line<'a> {
    fn skip_blanks(&mut self)
        ensures same { left self.new ≡ left self.old }
        ensures first { blank (slice_index self.new.text.now 0) ≡ false }
    {
        let text = self.text.trim_start_matches([' ', '\t', '\r']);
        self.at += self.text.len() - text.len();
        self.text = text;
    }

    /// Whether no word is left. The line then begins where it ends, and otherwise at its next word.
    pub fn at_end(&mut self) -> bool
        ensures same { left self.new ≡ left self.old }
        ensures value { result ≡ ended (left self.old) }
        ensures place { self.new.at ≡ first_place (left self.old) }
    {
        self.skip_blanks();
        self.text.is_empty()
    }

    /// The next word.
    pub fn word(&mut self) -> Result<Word<'a>, ReadError>
        ensures { Answers ⊥ result (λ w. took (w.at, w.text.now) (left self.new)) (take_word (left self.old)) }
    {
        self.skip_blanks();
        let at = self.at;
        if self.text.is_empty() {
            return Err(ReadError::At(at));
        }
        let (text, rest) = cut_word(self.text);
        self.at = at + text.len();
        self.text = rest;
        Ok(Word { at, text })
    }

    /// The next word, as `read` reads it.
    fn read<T: Drop, F: Fn(&str) -> Option<T>>(&mut self, read: F) -> Result<T, ReadError>
        requires { F.IsAlwaysCallable read }
        ensures { (f : List ℕ → Option T) → Makes (FnReturnsAt F.Fn read) f → Answers ⊥ result (λ n. took n (left self.new)) (take f (left self.old)) }
    {
        let word = self.word()?;
        read(word.text).ok_or(word.misfit())
    }

    /// A number up to 2^64 - 1.
    pub fn number(&mut self) -> Result<u64, ReadError>
        ensures { Answers ⊥ result (λ n. took n (left self.new)) (take_number (left self.old)) }
    {
        self.read(number)
    }

    /// A name with any number.
    pub fn name(&mut self) -> Result<u64, ReadError>
        ensures { Answers ⊥ result (λ n. took n (left self.new)) (take_name (left self.old)) }
    {
        self.read(name)
    }

    /// The name of one of the 64 variables.
    pub fn variable(&mut self) -> Result<u8, ReadError>
        ensures { Answers ⊥ result (λ n. took n (left self.new)) (take_variable (left self.old)) }
    {
        self.read(variable)
    }

    /// A number up to 65,535.
    pub fn value(&mut self) -> Result<u16, ReadError>
        ensures { Answers ⊥ result (λ n. took n (left self.new)) (take_value (left self.old)) }
    {
        self.read(value)
    }

    /// This word and no other.
    pub fn keyword(&mut self, keyword: &str) -> Result<(), ReadError>
        ensures { Answers ⊥ result (λ _. took tt (left self.new)) (take_keyword keyword.now (left self.old)) }
    {
        let word = self.word()?;
        if word.text == keyword {
            Ok(())
        } else {
            Err(word.misfit())
        }
    }

    /// No word.
    pub fn end(&mut self) -> Result<(), ReadError>
        ensures { Answers ⊥ result (λ _. took tt (left self.new)) (take_end (left self.old)) }
    {
        if self.at_end() {
            Ok(())
        } else {
            Err(ReadError::At(self.at))
        }
    }
}
