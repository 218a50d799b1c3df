//! Programs made into code.
#![tactic(auto)]

ghost use Rattle.compiler.specs.Compile.{CompileRight};
ghost use Rattle.compiler.specs.Size.{ShortCode};

mod draft;
mod emit;
mod entry;
pub mod instruction;

pub use entry::make;

/// Every program has code that is right for it.
pub fn compile_right()
    ensures { CompileRight }
{}

/// A program has no more instructions than tokens.
pub fn code_is_short()
    ensures { ShortCode }
{}
