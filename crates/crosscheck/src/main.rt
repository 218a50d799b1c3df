//! Random projects and scripts: the player's answer beside a plain story of what they mean.
#![tactic(auto)]

mod blanks;
mod cells;
mod grammar;
mod growing;
mod header;
mod meaning;
mod needs;
mod program;
mod random;
mod refusal;
mod row;
mod script;
mod spelling;
mod spoiling;
mod story;
mod tally;
mod telling;
mod token;
mod tree;
mod trouble;
mod variable;

use anyhow::ensure;
use project::play::play;
use row::Row;
use std::io;
use tally::Tally;
use trouble::Trouble;

/// How many rows are tried.
const ROWS: u64 = 20000;

/// Says what a row was, what was expected of it and what came.
fn report(rt: &HostRuntime, seed: u64, row: &Row, trouble: &Trouble) -> io::Result<()> {
    let project = row.project();
    let script = row.script();
    eprintln!(rt; "row {seed}: expected {trouble:?}")?;
    eprintln!(rt; "--- project\n{project}\n--- script\n{script}\n--- answer")?;
    match play(rt.alloc(), project, script) {
        Ok(text) => eprintln!(rt; "{text}"),
        Err(failure) => eprintln!(rt; "{failure:?}"),
    }
}

/// Makes a row and holds the player's answer against the plain story; whether they agree.
fn agrees(rt: &HostRuntime, seed: u64, tally: &mut Tally) -> io::Result<bool> {
    let row = Row::random(rt.alloc(), seed)?;
    match row.check(rt.alloc(), tally) {
        Ok(()) => Ok(true),
        Err(trouble) => {
            report(rt, seed, &row, &trouble)?;
            Ok(false)
        }
    }
}

fn main(rt: HostRuntime) -> anyhow::Result<()> {
    let mut tally = Tally::new();
    for seed in 0..ROWS {
        ensure!(agrees(&rt, seed, &mut tally)?, "the answers differ");
    }
    println!(rt; "{ROWS} rows agreed")?;
    tally.print(&rt)?;
    Ok(())
}
