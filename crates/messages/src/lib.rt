//! What people are told of a project or a script that is refused.
#![tactic(auto)]

pub mod message;
pub mod place;
mod sentence;
