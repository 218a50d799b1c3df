//! What the programs share: a project's file, and how what came of it is told.
#![tactic(auto)]

ghost use Rattle.std.specs.Prelude.{◌≡◌, IfOk, MatchResult};
ghost use Rattle.std.specs.Option.{IfSome};
ghost use Rattle.std.specs.IoError.{error_kind};

use project::load::Failure;
use project::message::message;
use std::alloc::{AllocError, Global};
use std::io::ErrorKind;
use std::process::ExitCode;
use std::rt::Files;
use std::{fs, io};

/// A project's file: its path and its text.
#[derive(Drop)]
pub struct ProjectFile {
    pub path: String,
    pub text: String,
}

/// Want of memory for a message, in the words that an `AllocError` has by itself: an error made of one by `?` has others.
fn no_memory(_error: AllocError) -> io::Error
    ensures { error_kind result ≡ ErrorKind.OutOfMemory }
{
    io::Error::new(ErrorKind::OutOfMemory, "memory allocation failed")
}

impl ProjectFile {
    /// The file at a path; where it can't be read, that is printed.
    pub fn open(
        rt: &(impl Files + Alloc<A = Global> + Eprint),
        path: String,
    ) -> io::Result<Option<ProjectFile>>
        ensures { IfOk result (λ o. IfSome o (λ file. file.path ≡ path)) }
    {
        match fs::read_to_string(rt, path.as_str()) {
            Ok(text) => Ok(Some(ProjectFile { path, text })),
            Err(error) => {
                eprintln!(rt; "{path}: {error}")?;
                Ok(None)
            }
        }
    }

    /// Prints the text that came of the project, or why there is none; with which status the program ends.
    pub fn tell(
        &self,
        rt: &(impl Print + Eprint),
        heap: Global,
        script: &str,
        answer: Result<String, Failure>,
    ) -> io::Result<ExitCode>
        ensures { IfOk result (λ code. MatchResult answer (λ _. code ≡ ExitCode.SUCCESS) (λ _. code ≡ ExitCode.FAILURE)) }
    {
        match answer {
            Ok(text) => {
                print!(rt; "{text}")?;
                Ok(ExitCode::SUCCESS)
            }
            Err(failure) => {
                let line = message(
                    heap,
                    self.path.as_str(),
                    self.text.as_str(),
                    script,
                    &failure,
                )
                .map_err(no_memory)?;
                eprintln!(rt; "{line}")?;
                Ok(ExitCode::FAILURE)
            }
        }
    }
}
