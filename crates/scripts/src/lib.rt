//! Scripts: texts that say what happens to a controller.
#![tactic(auto)]

pub mod script;
