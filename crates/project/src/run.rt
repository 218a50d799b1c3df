//! Events played through the controller's entries, one after another.
ghost use Rattle.std.specs.Prelude.{◌≡◌};
ghost use Rattle.project.specs.declared.run.RunError.TheVariants.{Memory};
ghost use Rattle.project.specs.Running.{Runs, Writes};

use crate::player::Player;
use base::VARIABLES;
use controller::MAX_MEMORY;
use reports::report::{Report, render};
use scripts::script::Event;
use std::alloc::{AllocError, AllocFailed, Global};

/// So many events find no memory.
const MANY: usize = 1 << 61;

/// Why events can't be played.
#[derive(Debug, Drop)]
pub enum RunError {
    /// There is no memory.
    Memory,
    /// More variables are kept than there are.
    Kept,
}

impl From<AllocError> for RunError {
    ghost from_gives = { λ _ error. error ≡ Memory };

    fn from(_error: AllocError) -> RunError {
        RunError::Memory
    }
}

impl<T: Drop> From<AllocFailed<T>> for RunError {
    ghost from_gives = { λ _ error. error ≡ Memory };

    fn from(_error: AllocFailed<T>) -> RunError {
        RunError::Memory
    }
}

/// A project that is played: how many variables are kept, which come from outside, what each is at first, and the code.
#[derive(Clone, Copy)]
pub struct Parts<'a> {
    pub kept: u64,
    pub inputs: &'a [u8; VARIABLES],
    pub firsts: &'a [u16; VARIABLES],
    pub code: &'a [u16],
}

/// Plays events through a controller of its own: what is reported of them, in their order.
pub fn run_events(
    heap: Global,
    project: &Parts<'_>,
    events: &[Event],
) -> Result<Vec<Report>, RunError>
    ensures { Runs project.now.kept project.now.inputs.now project.now.firsts.now project.now.code.now events.now result }
{
    let mut memory = [0; MAX_MEMORY];
    let mut player = Player::new(heap, *project, &mut memory)?;
    if events.len() >= MANY {
        return Err(RunError::Memory);
    }
    let mut reports = Vec::new(heap);
    for event in events {
        if let Some(report) = player.play(event)? {
            reports.push(report)?;
        }
    }
    Ok(reports)
}

/// Plays events through a controller of its own, and writes what is reported of them, a line each.
pub fn play_events(heap: Global, project: &Parts<'_>, events: &[Event]) -> Result<String, RunError>
    ensures { Writes project.now.kept project.now.inputs.now project.now.firsts.now project.now.code.now events.now result }
{
    let reports = run_events(heap, project, events)?;
    Ok(render(heap, reports.as_slice())?)
}
