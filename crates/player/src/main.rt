//! Plays a script, read from standard input, through the project that the first argument names.
#![tactic(auto)]

use console::ProjectFile;
use project::play::play;
use std::env;
use std::io::Read;
use std::process::ExitCode;

// The beginning is the maker's but for the usage: what a function over both would promise, no clause can say.
fn main(rt: HostRuntime) -> anyhow::Result<ExitCode> {
    let heap = rt.alloc();
    let Some(path) = env::args(&rt)?.nth(1) else {
        eprintln!(rt; "usage: player PROJECT < SCRIPT")?;
        return Ok(ExitCode::FAILURE);
    };
    let Some(project) = ProjectFile::open(&rt, path)? else {
        return Ok(ExitCode::FAILURE);
    };
    let mut script = String::new(heap);
    rt.stdin().read_to_string(&mut script)?;
    let answer = play(heap, project.text.as_str(), script.as_str());
    Ok(project.tell(&rt, heap, script.as_str(), answer)?)
}
