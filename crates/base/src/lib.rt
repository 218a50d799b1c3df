//! What all crates share: operations, why a request is refused, and (in specs/ and proofs/) words, stores and lent slices.
#![tactic(auto)]

ghost use Rattle.std.specs.Prelude.{◌≡◌};
ghost use Rattle.base.specs.Ops.{op_code, op_of};
ghost use Rattle.base.specs.Refusals.{number_of, place_of};

pub mod numerals;
mod texts;
pub mod words;

/// How many variables a project has, and points: `v0` to `v63`.
pub const VARIABLES: usize = 64;

/// An operation with two sides.
#[derive(Clone, Copy, Debug, PartialEq, Eq)]
pub enum Op {
    Add,
    Sub,
    Mul,
    Div,
    Less,
    Equal,
    And,
    Or,
}

impl Op {
    /// Its number in tokens, nodes and instructions, which the definitions call by this name.
    #[tactic(auto, unfolding(crate::specs::Ops::op_code))]
    pub fn number(self) -> u16
        ensures { result ≡ op_code self }
    {
        self as u16
    }

    /// The operation of a number; from 7 on `Or`. No `TryFrom`: the machine gives a meaning to every number.
    pub fn from_number(number: u16) -> Op
        ensures { result ≡ op_of number }
    {
        match number {
            0 => Op::Add,
            1 => Op::Sub,
            2 => Op::Mul,
            3 => Op::Div,
            4 => Op::Less,
            5 => Op::Equal,
            6 => Op::And,
            _ => Op::Or,
        }
    }
}

/// Why a request is refused, with its place where there are several. Numbers and places are those of the list of refusals,
/// by a rule of the project; they are numbers, since people and programs in C are told them.
#[derive(Clone, Copy, Debug, PartialEq, Eq)]
pub enum Refusal {
    /// The pair or the character at which there is no token.
    Token(u64),
    /// The first token at which no program goes on.
    Program(u64),
    /// Which limit the program passes: cost, height or depth.
    Limit(u64),
    /// The room for code is too short, and this long.
    Room(u64),
    /// The parameter, counted from 0, that has another length than it should have, or is too large.
    Length(u64),
    /// The controller is off.
    Off,
    /// The time is no word.
    Time,
    /// The stamp can't be raised.
    Stamp,
    /// The point, or the number for it.
    Point(u64),
}

impl Refusal {
    /// The number of the refusal in the list of refusals.
    pub fn number(self) -> u64
        ensures { result ≡ number_of self }
    {
        match self {
            Refusal::Token(_) => 1,
            Refusal::Program(_) => 2,
            Refusal::Limit(_) => 3,
            Refusal::Room(_) => 4,
            Refusal::Length(_) => 5,
            Refusal::Off => 6,
            Refusal::Time => 7,
            Refusal::Stamp => 8,
            Refusal::Point(_) => 9,
        }
    }

    /// The place that is told beside the number.
    pub fn place(self) -> u64
        ensures { result ≡ place_of self }
    {
        match self {
            Refusal::Token(place)
            | Refusal::Program(place)
            | Refusal::Limit(place)
            | Refusal::Room(place)
            | Refusal::Length(place)
            | Refusal::Point(place) => place,
            Refusal::Off => 0,
            Refusal::Time | Refusal::Stamp => 0,
        }
    }
}
