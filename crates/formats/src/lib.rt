//! The two formats that people write, projects and scripts: what is written out in them is read back as itself.
#![tactic(auto)]

ghost use Rattle.formats.specs.HeaderText.{ProjectReadsBack};
ghost use Rattle.formats.specs.ScriptText.{ScriptReadsBack};

pub use headers::header;
pub use lines::{line, words};
pub use scripts::script;

/// A theorem, and no work: every project that is written out in the format is read back as itself.
pub fn projects_are_read_back()
    ensures { ProjectReadsBack }
{}

/// A theorem, and no work: every script that is written out in the format is read back as itself.
pub fn scripts_are_read_back()
    ensures { ScriptReadsBack }
{}
