//! What a scan and a cut are given alike, and the run of the program over it.
ghost use Rattle.std.specs.Prelude.{◌≡◌, ◌<◌, length};
ghost use Rattle.base.specs.Stores.{cells};
ghost use Rattle.base.specs.Refusals.{Answered};
ghost use Rattle.base.specs.Words.{truthy};
ghost use Rattle.vm.specs.Outcomes.{program_of};
ghost use Rattle.controller.specs.World.{given, input_image};
ghost use Rattle.controller.specs.Requests.{lists_refusal, ListsFit};
ghost use Rattle.controller.specs.Memory.{live_in, flags, input_cell};

use crate::checks::{check_kept, whole};
use crate::layout::*;
use crate::memory::Memory;
use base::Refusal;
use std::array::from_fn;
use vm::run;

/// Which variables come from outside, the code, and what is outside.
#[derive(Clone, Copy)]
pub(crate) struct Given<'a> {
    pub(crate) inputs: &'a [u8; VARIABLES],
    pub(crate) code: &'a [u16],
    pub(crate) outside: &'a [u16; VARIABLES],
    // Said once more for proofs, which read no length from the type of an array behind a field.
    ghost long: { length inputs.now ≡ 64 },
}

/// What a run leaves: the variables' values, and whether the fault lamp is lit.
#[derive(Drop)]
pub(crate) struct Ran {
    pub(crate) values: [u64; VARIABLES],
    pub(crate) lamp: bool,
}

impl<'a> Given<'a> {
    /// Refuses more kept variables than there are, and lists of other lengths.
    pub(crate) fn new(
        kept: u64,
        inputs: &'a [u8],
        firsts: &[u16],
        code: &'a [u16],
        outside: &'a [u16],
    ) -> Result<Given<'a>, Refusal>
        ensures { Answered result (lists_refusal kept inputs.now firsts.now outside.now) (λ g. (g.inputs.now ≡ inputs.now) × (g.code.now ≡ code.now) × (g.outside.now ≡ outside.now) × ListsFit kept inputs.now firsts.now outside.now) (Unit {0}) }
    {
        check_kept(kept)?;
        let inputs = whole(inputs, 1)?;
        whole(firsts, 2)?;
        let outside = whole(outside, 4)?;
        Ok(Given {
            inputs,
            code,
            outside,
        })
    }

    /// What the program sees of a point: what it is forced to, what comes from outside, or what it had.
    fn seen(self, memory: Memory, point: usize) -> u64
        requires { point < 64 }
        ensures { result ≡ input_cell self.entry.inputs.now self.entry.outside.now memory.entry.cells.now point }
    {
        match memory.forced(point) {
            Some(number) => number,
            None if self.inputs[point] == 1 => self.outside[point] as u64,
            None => memory.cells[point],
        }
    }

    /// What the program sees of all points.
    fn image(self, memory: Memory) -> [u64; VARIABLES]
        ensures { cells result ≡ input_image (flags self.entry.inputs.now) (live_in memory.entry.cells.now) (cells self.entry.outside.now) }
    {
        from_fn(|point| self.seen(memory, point))
    }

    /// Runs the program once. Where the machine leaves code early, its values are as the code had put them till then.
    pub(crate) fn run(self, gone: u64, memory: Memory) -> Ran
        ensures values { cells result.values ≡ (program_of 64 self.entry.code.now gone (given (flags self.entry.inputs.now) (live_in memory.entry.cells.now) (cells self.entry.outside.now))).store }
        ensures len { length result.values ≡ 64 }
        ensures lamp { result.lamp ≡ truthy (program_of 64 self.entry.code.now gone (given (flags self.entry.inputs.now) (live_in memory.entry.cells.now) (cells self.entry.outside.now))).fault }
    {
        let mut values = self.image(memory);
        let mut fault = memory.lamp() as u64;
        let code = self.code;
        let _ = run(code, gone, &mut values, &mut fault);
        Ran {
            values,
            lamp: fault != 0,
        }
    }
}
