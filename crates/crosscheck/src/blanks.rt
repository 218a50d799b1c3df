//! Blanks of all kinds, and texts that are written with them.
use crate::random::Random;
use std::alloc::AllocError;
use std::fmt::Display;

impl Random {
    /// What parts tokens of a program.
    pub(crate) fn between(&mut self) -> &'static str {
        self.seldom(&["\t", "  ", "\n", "\r\n"], 8, " ")
    }

    /// What parts words of a line.
    pub(crate) fn gap(&mut self) -> &'static str {
        self.seldom(&["\t", "  ", " \t "], 8, " ")
    }

    /// What may stand before a number.
    pub(crate) fn zeros(&mut self) -> &'static str {
        self.seldom(&["0", "000"], 16, "")
    }

    /// What may stand before the first word of a line, after its last one, or in a line without words.
    fn margin(&mut self) -> &'static str {
        self.seldom(&[" ", "\t ", "\r"], 12, "")
    }
}

/// A text that is written with random blanks.
#[derive(Drop)]
pub struct Writer<'a> {
    pub text: String,
    pub random: &'a mut Random,
}

impl<'a> Writer<'a> {
    /// An empty text.
    pub(crate) fn new(random: &'a mut Random) -> Writer<'a> {
        Writer {
            text: String::new(random.heap),
            random,
        }
    }

    /// A line, with blanks before and behind it.
    pub(crate) fn line<L: Display + Drop>(&mut self, line: L) -> Result<(), AllocError> {
        let before = self.random.margin();
        let behind = self.random.margin();
        writeln!(self.text, "{before}{line}{behind}")
    }

    /// A line as it stands, where its first word that does not fit is so far from its beginning; answers the place of that word.
    pub(crate) fn misfit(&mut self, (line, at): (&str, usize)) -> Result<usize, AllocError> {
        let place = self.text.len().saturating_add(at);
        writeln!(self.text, "{line}")?;
        Ok(place)
    }

    /// What was written.
    pub(crate) fn into_text(self) -> String {
        let Writer { text, random: _ } = self;
        text
    }
}
