//! A project and a script, played: from text to text.
ghost use Rattle.std.specs.Prelude.{◌≡◌};
ghost use Rattle.project.specs.Loading.{EventsOf, failure_of, PartsOf, Plays};

use crate::run::{Parts, RunError, play_events};
use base::Refusal;
use loading::load::{Failure, Loaded, load};
use scripts::script::{Event, read_script};
use std::alloc::Global;

impl<'a> From<&'a Loaded> for Parts<'a> {
    ghost from_gives = { λ loaded parts. PartsOf loaded.now parts };

    fn from(loaded: &'a Loaded) -> Parts<'a> {
        Parts {
            kept: loaded.kept,
            inputs: &loaded.inputs,
            firsts: &loaded.firsts,
            code: loaded.code.as_slice(),
        }
    }
}

/// Why events were not played, as a failure of the project.
impl From<RunError> for Failure {
    ghost from_gives = { λ error failure. failure ≡ failure_of error };

    fn from(error: RunError) -> Failure {
        match error {
            RunError::Memory => Failure::Memory,
            RunError::Kept => Failure::Header(Refusal::Length(0)),
        }
    }
}

/// The events of a script's text.
pub fn events_of(heap: Global, script: &str) -> Result<Vec<Event>, Failure>
    ensures { EventsOf script.now result }
{
    read_script(heap, script).map_err(Failure::in_script)
}

/// What a script's events lead to in a project, as the text that a player prints.
pub fn play(heap: Global, project: &str, script: &str) -> Result<String, Failure>
    ensures { Plays project.now script.now result }
{
    let loaded = load(heap, project)?;
    let events = events_of(heap, script)?;
    Ok(play_events(heap, &Parts::from(&loaded), events.as_slice())?)
}
