//! A text cut into lines and a line into words, which are read as numbers, names of variables and keywords.
#![tactic(auto)]

pub mod line;
pub mod words;
