//! Why a text or a request is refused, numbered as in the list of docs/FORMATS.md.
use crate::tally::Met;
use project::load::Failure;
use std::fmt;

/// What a program needs too much of, in the order in which it is checked.
#[derive(Clone, Copy, Debug, PartialEq)]
pub enum Limit {
    Cost,
    Height,
    Depth,
}

/// A refusal of the list.
#[derive(Clone, Copy, Debug, PartialEq)]
pub enum Refusal {
    /// A text can't be read at this character.
    Text(usize),
    /// No program goes on at this token.
    Grammar(usize),
    Limit(Limit),
    /// More variables are kept than there are.
    Kept,
    /// The controller is off.
    Off,
    /// A time is no word.
    Time,
    /// There is no such point.
    Point,
    /// A number for a point is no word.
    Number,
}

impl Refusal {
    /// Its number in the list.
    fn number(self) -> u64 {
        match self {
            Refusal::Text(_) => 1,
            Refusal::Grammar(_) => 2,
            Refusal::Limit(_) => 3,
            Refusal::Kept => 5,
            Refusal::Off => 6,
            Refusal::Time => 7,
            Refusal::Point | Refusal::Number => 9,
        }
    }

    /// The place that is told beside the number.
    fn place(self) -> u64 {
        match self {
            Refusal::Text(place) | Refusal::Grammar(place) => place as u64,
            Refusal::Limit(limit) => limit as u64,
            Refusal::Number => 1,
            Refusal::Kept | Refusal::Off | Refusal::Time | Refusal::Point => 0,
        }
    }
}

/// The line that a player prints of a request that is refused.
impl fmt::Display for Refusal {
    fn fmt<W: fmt::Write>(&self, f: &mut fmt::Formatter<W>) -> fmt::Result {
        write!(f, "refused {} at {}", self.number(), self.place())
    }
}

/// The parts of the texts, each with places of its own.
#[derive(Clone, Copy, Debug, PartialEq)]
pub enum Part {
    Header,
    Program,
    Script,
}

/// Texts that are refused: in which part, and why.
#[derive(Clone, Copy, Debug)]
pub struct Refused {
    pub part: Part,
    pub why: Refusal,
}

impl Refused {
    /// Does the player say the same?
    pub(crate) fn agrees(self, failure: &Failure) -> bool {
        let (part, why) = match failure {
            Failure::Memory => return false,
            Failure::Header(why) => (Part::Header, why),
            Failure::Program(why) => (Part::Program, why),
            Failure::Script(why) => (Part::Script, why),
        };
        self.part == part && self.why.number() == why.number() && self.why.place() == why.place()
    }
}

/// What a row counts as.
impl From<Refused> for Met {
    fn from(refused: Refused) -> Met {
        match (refused.part, refused.why) {
            (Part::Header, Refusal::Kept) => Met::Kept,
            (Part::Header, _) => Met::Header,
            (Part::Program, Refusal::Text(_)) => Met::Text,
            (Part::Program, Refusal::Grammar(_)) => Met::Grammar,
            (Part::Program, _) => Met::Limit,
            (Part::Script, _) => Met::Script,
        }
    }
}
