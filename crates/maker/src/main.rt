//! Prints the code of the project that the first argument names, and what it needs.
#![tactic(auto)]

use console::ProjectFile;
use project::listing::listing;
use std::env;
use std::process::ExitCode;

// The beginning is the player's but for the usage: what a function over both would promise, no clause can say.
fn main(rt: HostRuntime) -> anyhow::Result<ExitCode> {
    let heap = rt.alloc();
    let Some(path) = env::args(&rt)?.nth(1) else {
        eprintln!(rt; "usage: maker PROJECT")?;
        return Ok(ExitCode::FAILURE);
    };
    let Some(project) = ProjectFile::open(&rt, path)? else {
        return Ok(ExitCode::FAILURE);
    };
    let answer = listing(heap, project.text.as_str());
    Ok(project.tell(&rt, heap, "", answer)?)
}
