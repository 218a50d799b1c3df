//! What a project says: a header, and then the text of the program.
#![tactic(auto)]

pub mod header;
