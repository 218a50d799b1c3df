//! What can go wrong in a row: want of memory, or answers that differ.
use crate::refusal::Refused;
use std::alloc::{AllocError, AllocFailed};

/// Why a row does not agree.
#[derive(Debug, Drop)]
pub enum Trouble {
    Memory,
    /// The tree that was made and the one that was read mean different things.
    Meaning,
    /// The tree that was made is not read.
    Reading,
    /// The model of the cells and the story found different values.
    Cells,
    /// A line was expected where another one, or none, stands.
    Line(String),
    /// The end was expected where a line stands.
    End,
    /// The texts were expected to be played or to be refused so, and something else came.
    Answer(Result<(), Refused>),
}

impl From<AllocError> for Trouble {
    fn from(_e: AllocError) -> Trouble {
        Trouble::Memory
    }
}

impl<T: Drop> From<AllocFailed<T>> for Trouble {
    fn from(_e: AllocFailed<T>) -> Trouble {
        Trouble::Memory
    }
}
