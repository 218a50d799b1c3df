//! Variables of the language, v0 to v63.
ghost use Rattle.std.specs.Prelude.{◌<◌};

use std::fmt;

/// A variable, by its number.
#[derive(Clone, Copy)]
pub struct Variable(pub u8);

impl Variable {
    /// Its place among all of them.
    pub(crate) fn index(self) -> usize
        ensures { result < 64 }
    {
        // A bound kept by the type gets no proof: an enum with a reference in it, as `Token`, may hold no struct with a ghost field.
        self.0 as usize % 64
    }
}

/// Its name.
impl fmt::Display for Variable {
    fn fmt<W: fmt::Write>(&self, f: &mut fmt::Formatter<W>) -> fmt::Result {
        write!(f, "v{}", self.0)
    }
}
