//! A controller that plays events, and what is told of each.
ghost use Rattle.std.specs.Prelude.{◌≡◌, ◌≤◌, length};
ghost use Rattle.controller.specs.Layout.{memory_length};

use crate::inputs::note_inputs;
use crate::run::{Parts, RunError};
use crate::settings::*;
use base::VARIABLES;
use controller::{
    LAMP, MAX_DEVICE, MAX_MEMORY, cut, device_length, force, free, memory_length, scan, start,
    works,
};
use reports::report::{Report, refused};
use scripts::script::{Event, Input};
use std::alloc::{AllocError, Global};

/// A controller that plays a project: its memory, what was last said of each input, and what each variable last showed.
#[derive(Drop)]
pub(crate) struct Player<'a> {
    heap: Global,
    project: Parts<'a>,
    memory: &'a mut [u64],
    outside: [u16; VARIABLES],
    shown: [u64; VARIABLES],
    ghost few: { project.kept ≤ 64 },
    ghost whole: { length memory.now ≡ memory_length project.kept },
}

impl<'a> Player<'a> {
    ghost use Rattle.base.specs.Stores.{cells, region};
    ghost use Rattle.std.specs.Prelude.{map, IfOk, ◌==◌, slice_index};
    ghost use Rattle.std.specs.Option.{option_to_list};
    ghost use Rattle.scripts.specs.Script.{request, start as start_line, scan as scan_line, cut as cut_line, force as force_line, free as free_line};
    ghost use Rattle.reports.specs.Reports.{said};
    ghost use Rattle.project.specs.Running.{Opens, Moves};

    /// A controller as it leaves the factory, over a room for the longest memory: to begin takes nothing from the heap.
    pub(crate) fn new(
        heap: Global,
        project: Parts<'a>,
        room: &'a mut [u64; MAX_MEMORY],
    ) -> Result<Player<'a>, RunError>
        ensures { Opens project.entry result }
    {
        if project.kept > VARIABLES as u64 {
            return Err(RunError::Kept);
        }
        let memory = &mut room[..memory_length(project.kept)];
        let firsts = project.firsts;
        let _ = works(project.kept, firsts, memory);
        Ok(Player {
            heap,
            project,
            memory,
            outside: [0; VARIABLES],
            shown: [0; VARIABLES],
        })
    }

    /// Is the lamp lit?
    fn lamp_lit(&self) -> bool
        ensures { result ≡ (slice_index self.now.memory.now 193 == 1) }
    {
        self.memory[LAMP] == 1
    }

    /// The variables' values.
    fn values(&self) -> [u64; VARIABLES]
        ensures { cells result ≡ region self.now.memory.now 0 64 }
    {
        values_in(self.memory)
    }

    /// Power comes.
    fn start(&mut self) -> Result<Option<Report>, AllocError>
        ensures { IfOk result (λ o. Moves self.old start_line self.new (map said (option_to_list o))) }
    {
        let firsts = self.project.firsts;
        if let Err(refusal) = start(self.project.kept, firsts, self.memory) {
            return Ok(Some(refused(refusal)));
        }
        let values = self.values();
        let settings = first_settings(self.heap, self.project.kept as usize, &values)?;
        self.shown = values;
        Ok(Some(Report::Started(settings)))
    }

    /// A scan: what its line says of the inputs is noted, also where it is refused.
    fn scan(&mut self, elapsed: u64, named: &[Input]) -> Result<Option<Report>, AllocError>
        ensures { IfOk result (λ o. Moves self.old (scan_line elapsed named.now) self.new (map said (option_to_list o))) }
    {
        let Parts {
            kept,
            inputs,
            firsts,
            code,
        } = self.project;
        note_inputs(&mut self.outside, named);
        let was_lit = self.lamp_lit();
        let mut out = [0; VARIABLES];
        let mut writes = [0; MAX_DEVICE];
        if let Err(refusal) = scan(
            kept,
            inputs,
            firsts,
            code,
            &self.outside,
            elapsed,
            self.memory,
            &mut out,
            &mut writes[..device_length(kept)],
        ) {
            return Ok(Some(refused(refusal)));
        }
        let changed = changed_settings(self.heap, &self.shown, &out)?;
        self.shown = out;
        let lamp = !was_lit && self.lamp_lit();
        Ok(Some(Report::Scanned { changed, lamp }))
    }

    /// A scan whose save is cut at a write, which leaves junk.
    fn cut(&mut self, elapsed: u64, at: u64, junk: u64, named: &[Input]) -> Option<Report>
        ensures { Moves self.old (cut_line elapsed at junk named.now) self.new (map said (option_to_list result)) }
    {
        let Parts {
            kept,
            inputs,
            firsts,
            code,
        } = self.project;
        note_inputs(&mut self.outside, named);
        cut(
            kept,
            inputs,
            firsts,
            code,
            &self.outside,
            elapsed,
            at,
            junk,
            self.memory,
        )
        .err()
        .map(refused)
    }

    /// A point is forced.
    fn force(&mut self, point: u64, number: u64) -> Option<Report>
        ensures { Moves self.old (force_line point number) self.new (map said (option_to_list result)) }
    {
        force(self.project.kept, point, number, self.memory)
            .err()
            .map(refused)
    }

    /// A point is freed.
    fn free(&mut self, point: u64) -> Option<Report>
        ensures { Moves self.old (free_line point) self.new (map said (option_to_list result)) }
    {
        free(self.project.kept, point, self.memory)
            .err()
            .map(refused)
    }

    /// One event, and what is told of it.
    pub(crate) fn play(&mut self, event: &Event) -> Result<Option<Report>, AllocError>
        ensures { IfOk result (λ o. Moves self.old (request event.now) self.new (map said (option_to_list o))) }
    {
        match event {
            Event::Start => self.start(),
            Event::Scan { elapsed, inputs } => self.scan(*elapsed, inputs.as_slice()),
            Event::Cut {
                elapsed,
                at,
                junk,
                inputs,
            } => Ok(self.cut(*elapsed, *at, *junk, inputs.as_slice())),
            Event::Force { point, number } => Ok(self.force(*point, *number)),
            Event::Free { point } => Ok(self.free(*point)),
        }
    }
}
