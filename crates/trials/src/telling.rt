//! What is printed of a project, on which stream, how the program ends, and what is told where a stream fails.
use base::Refusal;
use console::ProjectFile;
use project::load::Failure;
use std::alloc::{AllocError, Global};
use std::cell::RefCell;
use std::fmt::Display;
use std::io::{self, ErrorKind};
use std::process::ExitCode;
use std::test::Fail;

/// Two streams that keep all that they are given; where they are closed, they take nothing.
#[derive(Drop)]
struct Streams {
    heap: Global,
    closed: bool,
    out: RefCell<String>,
    error: RefCell<String>,
}

impl Streams {
    fn new(heap: Global, closed: bool) -> Streams {
        Streams {
            heap,
            closed,
            out: RefCell::new(String::new(heap)),
            error: RefCell::new(String::new(heap)),
        }
    }

    fn take<D: Display + Drop>(
        &self,
        stream: &RefCell<String>,
        value: D,
        end: &str,
    ) -> io::Result<()> {
        if self.closed {
            return Err(io::Error::from(ErrorKind::BrokenPipe));
        }
        let said = format!(in self.heap; "{value}{end}")?;
        let mut kept = stream.try_borrow_mut()?;
        kept.push_str(said.as_str())?;
        Ok(())
    }
}

impl Print for Streams {
    fn print<D: Display + Drop>(&self, value: D) -> io::Result<()> {
        self.take(&self.out, value, "")
    }

    fn println<D: Display + Drop>(&self, value: D) -> io::Result<()> {
        self.take(&self.out, value, "\n")
    }

    fn write_all(&self, _bytes: &[u8]) -> io::Result<()> {
        Err(io::Error::from(ErrorKind::Unsupported))
    }
}

impl Eprint for Streams {
    fn eprint<D: Display + Drop>(&self, value: D) -> io::Result<()> {
        self.take(&self.error, value, "")
    }

    fn eprintln<D: Display + Drop>(&self, value: D) -> io::Result<()> {
        self.take(&self.error, value, "\n")
    }
}

/// Is this all that a stream was given?
fn holds(stream: &RefCell<String>, text: &str) -> io::Result<bool> {
    let kept = stream.try_borrow()?;
    Ok(kept.as_str() == text)
}

/// A script whose second line is no event.
const SCRIPT: &str = "start\nscan x\n";

/// A project in which an expression is missing.
fn mill(heap: Global) -> Result<ProjectFile, AllocError> {
    Ok(ProjectFile {
        path: String::from_str(heap, "mill.plc")?,
        text: String::from_str(heap, "program\nv1 := ;\n")?,
    })
}

/// What came of a project.
#[derive(Clone, Copy)]
enum Came {
    Text,
    ProgramRefused,
    ScriptRefused,
}

impl Came {
    fn answer(self, heap: Global) -> Result<Result<String, Failure>, AllocError> {
        Ok(match self {
            Came::Text => Ok(String::from_str(heap, "start: v0 5\n")?),
            Came::ProgramRefused => Err(Failure::Program(Refusal::Program(2))),
            Came::ScriptRefused => Err(Failure::Script(Refusal::Token(11))),
        })
    }
}

/// What is told of it over such streams.
fn told(streams: &Streams, came: Came) -> io::Result<ExitCode> {
    let heap = streams.heap;
    let answer = came.answer(heap)?;
    mill(heap)?.tell(streams, heap, SCRIPT, answer)
}

#[test]
fn a_text_goes_to_one_stream_and_a_refusal_to_the_other(rt: HostRuntime) -> Result<(), Fail> {
    let program = "mill.plc:2:7: refused 2 at 2: expected an expression, found ';'\n";
    let script = "script:2:6: refused 1 at 11: no event goes on so\n";
    let cases = [
        (Came::Text, ExitCode::SUCCESS, "start: v0 5\n", ""),
        (Came::ProgramRefused, ExitCode::FAILURE, "", program),
        (Came::ScriptRefused, ExitCode::FAILURE, "", script),
    ];
    for (came, status, out, error) in cases {
        let streams = Streams::new(rt.alloc(), false);
        assert!(rt; told(&streams, came)? == status);
        assert!(rt; holds(&streams.out, out)? && holds(&streams.error, error)?);
    }
    Ok(())
}

// What failed can be asked for: a caller may end quietly where nobody reads any more.
#[test]
fn a_stream_that_fails_is_told_by_its_kind(rt: HostRuntime) {
    for came in [Came::Text, Came::ProgramRefused, Came::ScriptRefused] {
        let streams = Streams::new(rt.alloc(), true);
        let kind = told(&streams, came).map_err(|error| error.kind());
        assert!(rt; kind == Err(ErrorKind::BrokenPipe));
    }
}
