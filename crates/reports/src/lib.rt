//! What is told of events, and its text.
#![tactic(auto)]

pub mod report;
