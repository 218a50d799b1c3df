//! A project's text made ready to run, or the reason why it is not taken.
#![tactic(auto)]

pub mod load;
