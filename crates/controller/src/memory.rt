//! The lent memory as it is read: power, the lamp, the values, and what points are forced to.
ghost use Rattle.std.specs.Prelude.{◌≡◌, ◌<◌, ◌≤◌, ◌==◌, length, slice_index};
ghost use Rattle.base.specs.Stores.{cells};
ghost use Rattle.base.specs.Refusals.{Answered};
ghost use Rattle.controller.specs.World.{output_image};
ghost use Rattle.controller.specs.Layout.{memory_length};
ghost use Rattle.controller.specs.Requests.{length_refusal, power_refusal, ready_refusal, Ready};
ghost use Rattle.controller.specs.Memory.{live_in, forced_in};

use crate::checks::check_length;
use crate::layout::*;
use base::Refusal;
use std::array::from_fn;

/// A memory: at least all that stands before the device.
#[derive(Clone, Copy)]
pub(crate) struct Memory<'a> {
    pub(crate) cells: &'a [u64],
    ghost long: { 194 ≤ length cells.now },
}

impl<'a> Memory<'a> {
    /// Refuses a memory of another length than so many kept variables want, the parameter at `place` of the call.
    pub(crate) fn new(kept: u64, cells: &'a [u64], place: u64) -> Result<Memory<'a>, Refusal>
        requires { kept ≤ 64 }
        ensures { Answered result (length_refusal (length cells.now) (memory_length kept) place) (λ m. (m.cells.now ≡ cells.now) × (length cells.now ≡ memory_length kept)) (Unit {0}) }
    {
        check_length(cells.len(), memory_length(kept), place)?;
        Ok(Memory { cells })
    }

    /// Refuses where the controller is off.
    pub(crate) fn check_power(self) -> Result<(), Refusal>
        ensures { Answered result (power_refusal self.entry.cells.now) (λ _. slice_index self.entry.cells.now 192 ≡ 1) (Unit {0}) }
    {
        if self.cells[ON] != 1 {
            return Err(Refusal::Off);
        }
        Ok(())
    }

    /// Whether a scan or a cut can be done now, but for the stamp, which the commit looks at.
    pub(crate) fn check_ready(self, gone: u64) -> Result<(), Refusal>
        ensures { Answered result (ready_refusal gone self.entry.cells.now) (λ _. Ready gone self.entry.cells.now) (Unit {0}) }
    {
        self.check_power()?;
        if gone > MAX_WORD {
            return Err(Refusal::Time);
        }
        Ok(())
    }

    /// Whether the fault lamp is lit.
    pub(crate) fn lamp(self) -> bool
        ensures { result ≡ slice_index self.entry.cells.now 193 == 1 }
    {
        self.cells[LAMP] == 1
    }

    /// What a point is forced to, if it is forced.
    pub(crate) fn forced(self, point: usize) -> Option<u64>
        requires { point < 64 }
        ensures { result ≡ forced_in self.entry.cells.now point }
    {
        if self.cells[FORCED + point] == 1 {
            Some(self.cells[FORCE + point])
        } else {
            None
        }
    }

    /// What goes out at each point: what it is forced to, or the value that the program put.
    pub(crate) fn outputs(self, values: &[u64; VARIABLES]) -> [u64; VARIABLES]
        ensures { cells result ≡ output_image (live_in self.entry.cells.now) (cells values.now) }
    {
        from_fn(|point| self.forced(point).unwrap_or(values[point]))
    }
}
