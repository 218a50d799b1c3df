//! Tokens read as a tree.
#![tactic(auto)]

ghost use Rattle.syntax.specs.Names.{ProgramFits};
ghost use Rattle.syntax.specs.Theorems.{Sound, Complete, OneTree, RightPlace, OnePlace};

mod build;
mod climb;
mod expected;
mod expression;
mod frame;
pub mod node;
mod operator;
mod parser;
mod shape;
mod state;
mod statement;
pub mod tree;

pub use expected::{Expected, expected_at};
pub use operator::strength_of;
pub use parser::parse;
pub use tree::Tree;

/// The theorems of the parser.
pub fn parser_is_right()
    ensures sound { Sound }
    ensures complete { Complete }
    ensures unique { OneTree }
    ensures placed { RightPlace }
    ensures once { OnePlace }
    ensures fits { ProgramFits }
{}
