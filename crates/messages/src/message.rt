//! The line that a refused project or script ends a program with.
ghost use Rattle.std.specs.Prelude.{◌≡◌, ◌+◌, min, length, IfOk, string_bytes};
ghost use Rattle.messages.specs.MessageText.{message};
ghost use Rattle.messages.specs.Messages.{program_start, program_text, header_place, TokenStands, Mismatched, ProgramSays, Says, SaysWhere};

use crate::place::{line_of, place_of_line};
use crate::sentence::{header_words, limit_words, mismatch, uncut_words};
use base::Refusal;
use headers::header::read_project;
use lexer::{TOKEN_ROOM, token_place, tokenize};
use loading::load::Failure;
use std::alloc::{AllocError, Global};

/// The text of a program, and where it begins in its project's text.
#[derive(Clone, Copy)]
struct Program<'a> {
    at: usize,
    text: &'a str,
}

/// The text of a project's program; the whole text where its header can't be read.
fn program_of(project: &str) -> Program<'_>
    ensures at { result.at ≡ program_start project.now }
    ensures text { result.text.now ≡ program_text project.now }
{
    match read_project(project) {
        Ok(header) => Program {
            at: header.at,
            text: header.program,
        },
        Err(_) => Program {
            at: 0,
            text: project,
        },
    }
}

/// A file with its text, in which messages point at places.
#[derive(Clone, Copy)]
struct Source<'a> {
    heap: Global,
    file: &'a str,
    text: &'a str,
}

impl Source<'_> {
    /// The message of a refusal at a place.
    fn line(&self, at: usize, refusal: Refusal, sentence: &str) -> Result<String, AllocError>
        ensures { IfOk result (λ s. string_bytes s ≡ message self.now.file.now self.now.text.now at refusal sentence.now) }
    {
        line_of(self.heap, self.file, self.text, at, refusal, sentence)
    }

    /// Where something in a program stands: the end of the text where that would be past it.
    fn place_in(&self, program: &Program<'_>, place: usize) -> usize
        ensures { result ≡ min (length self.now.text.now) (program.now.at + place) }
    {
        program.at.saturating_add(place).min(self.text.len())
    }

    /// Where one of the `count` tokens of a program stands; past the last one, the end of the text.
    fn place_of_token(&self, program: &Program<'_>, count: u64, index: u64) -> usize
        ensures { TokenStands self.now.text.now program.now.text.now program.now.at count index result }
    {
        if index < count {
            self.place_in(program, token_place(program.text, index))
        } else {
            self.text.len()
        }
    }

    /// Where a header is wrong: at the word that does not fit, or in its line `kept`.
    fn header_place(&self, refusal: Refusal) -> usize
        ensures { result ≡ header_place self.now.text.now refusal }
    {
        match refusal {
            Refusal::Token(place) => place as usize,
            _ => place_of_line(self.text, "kept"),
        }
    }

    /// The message of a program that is none from one of its tokens on.
    fn mismatch_line(&self, program: &Program<'_>, index: u64) -> Result<String, AllocError>
        ensures { IfOk result (λ s. Mismatched self.now.file.now self.now.text.now program.now.at program.now.text.now index (string_bytes s)) }
    {
        let refusal = Refusal::Program(index);
        let mut room = [0; TOKEN_ROOM];
        let Ok(count) = tokenize(program.text, &mut room) else {
            // only callers that ask about another text come here: refusal 2 follows a text that was cut
            let place = self.place_in(program, token_place(program.text, index));
            return self.line(place, refusal, "this is no program");
        };
        let sentence = mismatch(self.heap, &room[..2 * count as usize], index)?;
        let place = self.place_of_token(program, count, index);
        self.line(place, refusal, sentence.as_str())
    }

    /// The message of a program that is refused: at the character, at the token, or at the line `program`.
    fn program_line(&self, refusal: Refusal) -> Result<String, AllocError>
        ensures { IfOk result (λ s. ProgramSays self.now.file.now self.now.text.now refusal (string_bytes s)) }
    {
        let program = program_of(self.text);
        match refusal {
            Refusal::Token(place) => {
                let sentence = uncut_words(program.text, place as usize);
                let place = self.place_in(&program, place as usize);
                self.line(place, refusal, sentence)
            }
            Refusal::Program(index) => self.mismatch_line(&program, index),
            _ => {
                let sentence = limit_words(refusal.place());
                let place = place_of_line(self.text, "program");
                self.line(place, refusal, sentence)
            }
        }
    }
}

/// The line, without its end, that says why a project or a script is not taken: file, line and column, the refusal's number and place, and a
/// sentence.
pub fn message(
    heap: Global,
    file: &str,
    project: &str,
    script: &str,
    failure: &Failure,
) -> Result<String, AllocError>
    ensures says { IfOk result (λ s. Says file.now project.now script.now failure.now (string_bytes s)) }
    ensures points { IfOk result (λ s. SaysWhere file.now project.now script.now failure.now (string_bytes s)) }
{
    let source = Source {
        heap,
        file,
        text: project,
    };
    match failure {
        Failure::Memory => format!(in heap; "{file}: out of memory"),
        Failure::Header(refusal) => source.line(
            source.header_place(*refusal),
            *refusal,
            header_words(*refusal),
        ),
        Failure::Program(refusal) => source.program_line(*refusal),
        Failure::Script(refusal) => {
            let source = Source {
                heap,
                file: "script",
                text: script,
            };
            source.line(refusal.place() as usize, *refusal, "no event goes on so")
        }
    }
}
