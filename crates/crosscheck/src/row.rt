//! A row: a project and a script, played, and followed by the plain story.
use crate::header::Header;
use crate::program::Program;
use crate::random::Random;
use crate::refusal::{Part, Refusal, Refused};
use crate::script::Script;
use crate::story::{Story, Trees};
use crate::tally::{Met, Tally};
use crate::trouble::Trouble;
use lexer::{TOKEN_ROOM, tokenize};
use project::play::play;
use std::alloc::{AllocError, Global};
use syntax::parse;
use syntax::tree::Tree;

/// The parts of a project and a script, and the project's text.
#[derive(Drop)]
pub struct Row {
    header: Header,
    program: Program,
    script: Script,
    project: String,
}

/// The tree that a program's text is read as.
fn read(text: &str) -> Option<Tree> {
    let mut room = [0; TOKEN_ROOM];
    let tokens = tokenize(text, &mut room).ok()?;
    parse(&room[..2 * tokens as usize]).ok()
}

/// A project's text; where its header can't be read, that is all of it.
fn project_text(header: &Header, program: &Program) -> Result<String, AllocError> {
    let mut text = header.text.clone()?;
    if header.wrong.is_none() {
        text.push_str(program.text.as_str())?;
    }
    Ok(text)
}

impl Row {
    /// The row of a seed.
    pub(crate) fn random(heap: Global, seed: u64) -> Result<Row, AllocError> {
        let mut random = Random::new(heap, seed);
        let header = Header::random(&mut random)?;
        let program = Program::random(&mut random)?;
        Ok(Row {
            project: project_text(&header, &program)?,
            script: Script::random(&mut random, header.settings.kept)?,
            header,
            program,
        })
    }

    /// The project's text.
    pub(crate) fn project(&self) -> &str {
        self.project.as_str()
    }

    /// The script's text.
    pub(crate) fn script(&self) -> &str {
        self.script.text.as_str()
    }

    /// Where the first check fails, in the order of the refusals.
    fn expected(&self) -> Result<(), Refused> {
        let (part, why) = if let Some(place) = self.header.wrong {
            (Part::Header, Refusal::Text(place))
        } else if let Some(why) = self.program.refused {
            (Part::Program, why)
        } else if self.header.settings.kept > 64 {
            (Part::Header, Refusal::Kept)
        } else if let Some(place) = self.script.wrong {
            (Part::Script, Refusal::Text(place))
        } else {
            return Ok(());
        };
        Err(Refused { part, why })
    }

    /// Follows an answer that is a text.
    fn follow(&self, heap: Global, answer: &str, tally: &mut Tally) -> Result<(), Trouble> {
        tally.count(Met::Played);
        let tree = read(self.program.text.as_str()).ok_or(Trouble::Reading)?;
        let trees = Trees {
            made: &self.program.stmt,
            read: &tree,
        };
        let story = Story::new(heap, trees, tally, self.header.settings);
        story.follow(self.script.events.as_slice(), answer)
    }

    /// Plays it, and holds the answer against the plain story.
    pub(crate) fn check(&self, heap: Global, tally: &mut Tally) -> Result<(), Trouble> {
        match (play(heap, self.project(), self.script()), self.expected()) {
            (Ok(answer), Ok(())) => self.follow(heap, answer.as_str(), tally),
            (Err(failure), Err(refused)) if refused.agrees(&failure) => {
                tally.count(Met::from(refused));
                Ok(())
            }
            (_, expected) => Err(Trouble::Answer(expected)),
        }
    }
}
