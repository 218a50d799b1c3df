//! Places in a text: their lines and columns, and the message that points at one.
ghost use Rattle.std.specs.Prelude.{not, count_by, ◌==◌, ◌≡◌, ◌+◌, ◌^◌, ◌<◌, [], ◌++◌, length, IfOk, string_bytes, codes};
ghost use Rattle.std.specs.List.{suffix_len};
ghost use Rattle.messages.specs.MessageText.{line_at, column_at, keyword_place, line_place, message};
ghost use Rattle.lines.specs.Reading.{take_word};
ghost use Rattle.lines.specs.Words.{words_on, lines_on};

use base::Refusal;
use lines::line::{Line, Lines};
use std::alloc::{AllocError, Global};

/// How many line feeds there are.
fn line_feeds(bytes: &[u8]) -> usize
    ensures { result ≡ count_by (λ b. b == 10) bytes.now }
{
    bytes.iter().filter(|b| **b == b'\n').count()
}

/// How many bytes stand after the last line feed.
fn since_feed(bytes: &[u8]) -> usize
    ensures { result ≡ suffix_len (λ b. not (b == 10)) bytes.now }
{
    bytes.iter().rev().take_while(|b| **b != b'\n').count()
}

/// The line and the column of a place in a text, both counted from 1.
pub fn line_and_column(text: &str, place: usize) -> (usize, usize)
    ensures line { result.0 ≡ line_at text.now place }
    ensures column { result.1 ≡ column_at text.now place }
{
    let bytes = text.as_bytes();
    let before = &bytes[..place.min(bytes.len())];
    (1 + line_feeds(before), 1 + since_feed(before))
}

/// Where a line has a keyword first; none if it begins with another word, or with none.
fn keyword_place(mut line: Line<'_>, keyword: &str) -> Option<usize>
    ensures { result ≡ keyword_place keyword.now (take_word (words_on line.entry.at [] line.entry.text.now)) }
{
    let word = line.word().ok()?;
    (word.text == keyword).then_some(word.at)
}

/// Where the first line that begins with a keyword has it; the end of the text if there is none.
pub fn place_of_line(text: &str, keyword: &str) -> usize
    ensures { result ≡ line_place keyword.now (lines_on 0 [] text.now) }
{
    for line in Lines::new(text) {
        if let Some(place) = keyword_place(line, keyword) {
            return place;
        }
    }
    text.len()
}

/// The message of a refusal at a place of a file's text.
pub fn line_of(
    heap: Global,
    file: &str,
    text: &str,
    at: usize,
    refusal: Refusal,
    sentence: &str,
) -> Result<String, AllocError>
    ensures { IfOk result (λ s. string_bytes s ≡ message file.now text.now at refusal sentence.now) }
{
    let (line, column) = line_and_column(text, at);
    let number = refusal.number();
    let place = refusal.place();
    format!(in heap; "{file}:{line}:{column}: refused {number} at {place}: {sentence}")
}
