//! Projects: a header, and then the text of the program.
ghost use Rattle.std.specs.Prelude.{◌≡◌, Bool, false, [], length, replicate, None, nat_le};
ghost use Rattle.base.specs.Refusals.{unless, Checked};
ghost use Rattle.headers.specs.Header.{plan, take_kept, take_marks, take_outside, unless_named, take_first, take_entry, read_header_line, finished, read_project};
ghost use Rattle.lines.specs.Reading.{took, left, variable_of, Answers, Reads};

use base::{Refusal, VARIABLES};
use lines::line::{Line, Lines, Word};
use lines::words::{ReadError, variable};

/// What a project's text says.
#[derive(Clone, Copy)]
pub struct Project<'a> {
    /// How many of the first variables outlast a power cut, as it is written.
    pub kept: u64,
    /// A 1 for each variable that comes from outside, as the controller's entries take it.
    pub inputs: [u8; VARIABLES],
    /// What each variable is at first.
    pub firsts: [u16; VARIABLES],
    /// Where the program's text begins; with that text it is no `Line`, since whoever makes a project may say any place.
    pub at: usize,
    /// The program's text.
    pub program: &'a str,
}

impl Project<'_> {
    /// No more variables can be kept than there are.
    pub fn check_kept(&self) -> Result<(), Refusal>
        ensures { Checked result (unless (nat_le self.now.kept 64) 5 0 None) }
    {
        if self.kept > VARIABLES as u64 {
            Err(Refusal::Length(0))
        } else {
            Ok(())
        }
    }
}

/// What the lines of a header said so far.
#[derive(Clone, Copy)]
pub struct Header {
    kept: Option<u64>,
    inputs: Option<[u8; VARIABLES]>,
    /// What each variable is at first, if that was said.
    firsts: [Option<u16>; VARIABLES],
}

impl Header {
    /// The word `kept` was read: a number follows.
    fn read_kept(&mut self, line: &mut Line<'_>, word: Word<'_>) -> Result<(), ReadError>
        ensures { Answers ⊥ result (λ _. took self.new (left line.new)) (take_kept self.old word.entry.at (left line.old)) }
    {
        if self.kept.is_some() {
            return Err(word.misfit());
        }
        self.kept = Some(line.number()?);
        Ok(())
    }

    // Written out beside `read_kept`: one function of the field and of what reads it would be longer than both.
    /// The word `outside` was read: variables follow.
    fn read_outside(&mut self, line: &mut Line<'_>, word: Word<'_>) -> Result<(), ReadError>
        ensures { Answers ⊥ result (λ _. took self.new (left line.new)) (take_outside self.old word.entry.at (left line.old)) }
    {
        if self.inputs.is_some() {
            return Err(word.misfit());
        }
        self.inputs = Some(read_marks(line)?);
        Ok(())
    }

    /// A variable of which it was not said yet what it is at first.
    fn unnamed(&self, word: &str) -> Option<u8>
        ensures { result ≡ unless_named self.now.firsts (variable_of word.now) }
    {
        let variable = variable(word)?;
        let first = self.firsts[usize::from(variable)];
        first.is_none().then_some(variable)
    }

    /// The word `first` was read: a variable and a value follow.
    fn read_first(&mut self, line: &mut Line<'_>) -> Result<(), ReadError>
        ensures { Answers ⊥ result (λ _. took self.new (left line.new)) (take_first self.old (left line.old)) }
    {
        let word = line.word()?;
        let variable = self.unnamed(word.text).ok_or(word.misfit())?;
        self.firsts[usize::from(variable)] = Some(line.value()?);
        Ok(())
    }

    /// What a line says. Is it the line `program`?
    fn read_entry(&mut self, line: &mut Line<'_>) -> Result<bool, ReadError>
        ensures { Answers ⊥ result (λ b. took (b, self.new) (left line.new)) (take_entry self.old (left line.old)) }
    {
        let word = line.word()?;
        match word.text {
            "kept" => self.read_kept(line, word)?,
            "outside" => self.read_outside(line, word)?,
            "first" => self.read_first(line)?,
            "program" => return Ok(true),
            _ => return Err(word.misfit()),
        }
        Ok(false)
    }

    /// A whole line, which may be blank. Is it the line `program`?
    #[tactic(auto, unfolding(lines::specs::Reading::left, crate::specs::Header::read_header_line))]
    fn read_line(&mut self, mut line: Line<'_>) -> Result<bool, ReadError>
        ensures { Reads ⊥ result (λ b. (b, self.new)) (read_header_line self.old line.entry.at line.entry.text.now) }
    {
        if line.at_end() {
            return Ok(false);
        }
        let program = self.read_entry(&mut line)?;
        line.end()?;
        Ok(program)
    }

    /// The project, once the program's text is reached; what is not said is 0.
    fn finish(self, program: Line<'_>) -> Project<'_>
        ensures { plan result ≡ finished self program.entry.at program.entry.text.now }
    {
        Project {
            kept: self.kept.unwrap_or(0),
            inputs: self.inputs.unwrap_or([0; VARIABLES]),
            firsts: self.firsts.map(|value| value.unwrap_or(0)),
            at: program.at,
            program: program.text,
        }
    }
}

/// A 1 for each variable that is named up to the end of the line.
fn read_marks(line: &mut Line<'_>) -> Result<[u8; VARIABLES], ReadError>
    ensures { Answers ⊥ result (λ m. took m (left line.new)) (take_marks (replicate 64 0) (left line.old)) }
{
    let mut marks = [0; VARIABLES];
    while !line.at_end() {
        let variable = line.variable()?;
        marks[usize::from(variable)] = 1;
    }
    Ok(marks)
}

/// What a project's text says. A header that can't be read is refused at its first word that does not fit.
pub fn read_project(text: &str) -> Result<Project<'_>, ReadError>
    ensures { Reads ⊥ result plan (read_project text.now) }
{
    let mut header = Header {
        kept: None,
        inputs: None,
        firsts: [None; VARIABLES],
    };
    let mut lines = Lines::new(text);
    let end = Line {
        at: text.len(),
        text: "",
    };
    while let Some(line) = lines.next() {
        if header.read_line(line)? {
            return Ok(header.finish(lines.rest.unwrap_or(end)));
        }
    }
    Err(ReadError::At(end.at))
}
