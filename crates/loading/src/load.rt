//! A project's text made ready to run: what its header says, and the code of its program.
ghost use Rattle.std.specs.Prelude.{◌≡◌};
ghost use Rattle.loading.specs.Loading.{CutInto, CodedFor, CodedWithinNeeds, Loads, LoadsWithinNeeds};
ghost use Rattle.loading.specs.Failures.{in_header, in_script};
ghost use Rattle.loading.specs.declared.load.Failure.TheVariants.{Memory};

use base::{Refusal, VARIABLES};
use compiler::make;
use headers::header::read_project;
use lexer::{TOKEN_ROOM, tokenize};
use lines::words::ReadError;
use std::alloc::{AllocError, Global};

/// How many numbers the code of a program takes at most: four for each token, and four more.
const CODE_ROOM: usize = 2 * TOKEN_ROOM + 4;

/// Why texts are not taken: want of memory, or a refusal with the part of the text that its place counts in.
#[derive(Debug, Drop)]
pub enum Failure {
    Memory,
    /// In the header of a project, counted from the start of its text.
    Header(Refusal),
    /// In the program's text, counted from the start of that.
    Program(Refusal),
    /// In a script.
    Script(Refusal),
}

impl From<AllocError> for Failure {
    ghost from_gives = { λ _ failure. failure ≡ Memory };

    fn from(_error: AllocError) -> Failure {
        Failure::Memory
    }
}

/// What a header that can't be read is refused for; a script is by `in_script`.
impl From<ReadError> for Failure {
    ghost from_gives = { λ error failure. failure ≡ in_header error };

    fn from(error: ReadError) -> Failure {
        match error {
            ReadError::Memory => Failure::Memory,
            ReadError::At(place) => Failure::Header(Refusal::Token(place as u64)),
        }
    }
}

impl Failure {
    /// What a script that can't be read is refused for.
    pub fn in_script(error: ReadError) -> Failure
        ensures { result ≡ in_script error }
    {
        match error {
            ReadError::Memory => Failure::Memory,
            ReadError::At(place) => Failure::Script(Refusal::Token(place as u64)),
        }
    }
}

/// A project that is ready to run.
#[derive(Drop)]
pub struct Loaded {
    pub kept: u64,
    pub inputs: [u8; VARIABLES],
    pub firsts: [u16; VARIABLES],
    pub code: Vec<u16>,
}

/// The tokens of a program's text, as pairs of numbers.
pub fn tokens_of(heap: Global, text: &str) -> Result<Vec<u16>, Failure>
    ensures { CutInto text.now result }
{
    let mut room = [0; TOKEN_ROOM];
    let count = tokenize(text, &mut room).map_err(Failure::Program)?;
    Ok(Vec::from_slice(heap, &room[..2 * count as usize])?)
}

// Like `tokens_of` but for the call and the sizes: one function over both would take a closure, and each would be as long as now.
/// The code of the program that tokens are.
pub fn code_of(heap: Global, tokens: &[u16]) -> Result<Vec<u16>, Failure>
    ensures coded { CodedFor tokens.now result }
    ensures within { CodedWithinNeeds tokens.now result }
{
    let mut room = [0; CODE_ROOM];
    let count = make(tokens, &mut room).map_err(Failure::Program)?;
    Ok(Vec::from_slice(heap, &room[..4 * count as usize])?)
}

/// A project's text, read and compiled. The checks run in the order of the refusals' numbers.
pub fn load(heap: Global, text: &str) -> Result<Loaded, Failure>
    ensures loads { Loads text.now result }
    ensures within { LoadsWithinNeeds text.now result }
{
    let project = read_project(text)?;
    let tokens = tokens_of(heap, project.program)?;
    let code = code_of(heap, tokens.as_slice())?;
    project.check_kept().map_err(Failure::Header)?;
    Ok(Loaded {
        kept: project.kept,
        inputs: project.inputs,
        firsts: project.firsts,
        code,
    })
}
