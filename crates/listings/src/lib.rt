//! The listing of a project: its code, an instruction a line, and what it needs.
#![tactic(auto)]

pub mod code;
pub mod listing;
