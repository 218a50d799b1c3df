//! Texts cut into lines: what is left of a text, and of a line, as it is read.
ghost use Rattle.std.specs.Prelude.{◌≡◌, ◌+◌, ◌^◌, ◌<◌, length};

use crate::words::ReadError;

/// A word, and the place of its first character.
#[derive(Clone, Copy)]
pub struct Word<'a> {
    pub at: usize,
    pub text: &'a str,
}

impl Word<'_> {
    ghost use Rattle.lines.specs.declared.words.ReadError.TheVariants.{At};

    /// Why a text is not read in which this word does not fit.
    pub fn misfit(self) -> ReadError
        ensures { result ≡ At self.entry.at }
    {
        ReadError::At(self.at)
    }
}

/// What is left of a line, or of a text that is not cut into lines yet, and the place where that begins.
#[derive(Clone, Copy)]
pub struct Line<'a> {
    pub at: usize,
    pub text: &'a str,
    ghost fits: { at + length text.now < 2 ^ 64 },
}

/// The lines of a text, one after another: what is left of the text, and nothing once its last line was read.
#[derive(Drop)]
pub struct Lines<'a> {
    pub rest: Option<Line<'a>>,
}

impl<'a> Lines<'a> {
    ghost use Rattle.lines.specs.Lines.{AllLeft};

    /// The lines of a whole text.
    pub fn new(text: &'a str) -> Self
        ensures { AllLeft text.entry.now result.rest }
    {
        Lines {
            rest: Some(Line { at: 0, text }),
        }
    }
}

impl<'a> Iterator for Lines<'a> {
    ghost use Rattle.std.specs.Iterator.{at_most};
    ghost use Rattle.lines.specs.Lines.{Gives, lines_left};

    type Item = Line<'a>;

    ghost next_gives = { λ s r t. Gives s.rest r t.rest };

    ghost remaining = { λ s. at_most (lines_left s.rest) };

    fn next(&mut self) -> Option<Line<'a>> {
        let line = self.rest.take()?;
        let Some((text, after)) = line.text.split_once('\n') else {
            return Some(line);
        };
        let at = line.at + text.len() + 1;
        self.rest = Some(Line { at, text: after });
        Some(Line { at: line.at, text })
    }
}
