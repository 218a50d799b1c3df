//! The two slots of a device: where they begin, which one holds the values, and where the next commit goes.
ghost use Rattle.std.specs.Prelude.{◌≡◌, ℕ, ◌<◌, ◌≤◌, not, length, slice_index};
ghost use Rattle.base.specs.Stores.{cells};
ghost use Rattle.base.specs.Refusals.{Answered};
ghost use Rattle.retain.specs.Device.{cell_count, slot_base, valid, current, stamp as stamp_of, recovered, commit_writes};
ghost use Rattle.retain.specs.Entry.{upper, shape_refusal, stamp_refusal, Next};
ghost use Rattle.retain.specs.Commit.{to_come};

use super::writing::Writes;
use base::{Refusal, VARIABLES};

/// How many values can be kept at most.
const MAX_KEPT: usize = VARIABLES;

/// The first stamp that is too large to be followed by another.
const STAMP_END: u64 = 1 << 62;

/// One of the two slots.
#[derive(Clone, Copy)]
pub(crate) enum Slot {
    Lower,
    Upper,
}

/// Where a commit goes: the first cell of a slot, and its stamp.
#[derive(Clone, Copy)]
pub(crate) struct Target {
    pub(crate) cell: usize,
    pub(crate) stamp: u64,
}

impl Slot {
    fn other(self) -> Slot
        ensures { upper result ≡ not (upper self) }
    {
        match self {
            Slot::Lower => Slot::Upper,
            Slot::Upper => Slot::Lower,
        }
    }
}

/// The cells of a device, with how many values it keeps: never more than can be kept, and as many cells as they want.
#[derive(Clone, Copy)]
pub(crate) struct Device<'a> {
    pub(crate) kept: usize,
    pub(crate) cells: &'a [u64],
    ghost few: { kept ≤ 64 },
    ghost fits: { length cells.now ≡ cell_count kept },
}

impl<'a> Device<'a> {
    /// Refuses cells that aren't a device for so many values, or a list of `count` values that is too short for them.
    pub(crate) fn new(kept: usize, cells: &'a [u64], count: usize) -> Result<Device<'a>, Refusal>
        ensures { Answered result (shape_refusal kept cells.now count) (λ d. (d.kept ≡ kept) × (d.cells.now ≡ cells.now) × (kept ≤ count)) (Unit {0}) }
    {
        if kept > MAX_KEPT {
            Err(Refusal::Length(0))
        } else if cells.len() != 2 * (kept + 2) {
            Err(Refusal::Length(1))
        } else if count < kept {
            Err(Refusal::Length(2))
        } else {
            Ok(Device { kept, cells })
        }
    }

    /// Where a slot begins.
    fn slot_base(self, slot: Slot) -> usize
        ensures { result ≡ slot_base self.entry.kept (upper slot) }
    {
        match slot {
            Slot::Lower => 0,
            Slot::Upper => self.kept + 2,
        }
    }

    /// Whether the two stamps of the slot are equal, and not 0.
    fn is_valid(self, slot: Slot) -> bool
        ensures { result ≡ valid self.entry.kept (cells self.entry.cells.now) (upper slot) }
    {
        let base = self.slot_base(slot);
        self.cells[base] == self.cells[base + 1 + self.kept] && self.cells[base] > 0
    }

    /// The slot that holds the values: of two valid ones the one with the larger stamp.
    fn current(self) -> Slot
        ensures { upper result ≡ current self.entry.kept (cells self.entry.cells.now) }
    {
        let newer = !self.is_valid(Slot::Lower) || self.cells[0] < self.cells[self.kept + 2];
        if self.is_valid(Slot::Upper) && newer {
            Slot::Upper
        } else {
            Slot::Lower
        }
    }

    /// The stamp of the current slot.
    fn stamp(self) -> u64
        ensures { result ≡ stamp_of self.entry.kept (cells self.entry.cells.now) }
    {
        self.cells[self.slot_base(self.current())]
    }

    /// The values in the current slot.
    pub(crate) fn values(self) -> &'a [u64]
        ensures long { length result.now ≡ self.entry.kept }
        ensures held { (i : ℕ) → i < self.entry.kept → slice_index result.now i ≡ recovered self.entry.kept (cells self.entry.cells.now) i }
    {
        let first = self.slot_base(self.current()) + 1;
        let cells = self.cells;
        &cells[first..first + self.kept]
    }

    /// The other slot than the current one, and the next stamp.
    fn next_target(self) -> Result<Target, Refusal>
        ensures { Answered result (stamp_refusal (stamp_of self.entry.kept (cells self.entry.cells.now))) (λ t. Next self.entry.kept (cells self.entry.cells.now) t) (Unit {0}) }
    {
        let stamp = self.stamp();
        if stamp >= STAMP_END {
            return Err(Refusal::Stamp);
        }
        Ok(Target {
            cell: self.slot_base(self.current().other()),
            stamp: stamp + 1,
        })
    }

    /// The writes of a commit of the values, to the next target.
    pub(crate) fn next_commit<'b>(self, values: &'b [u64]) -> Result<Writes<'b>, Refusal>
        requires { self.kept ≤ length values.now }
        ensures { Answered result (stamp_refusal (stamp_of self.entry.kept (cells self.entry.cells.now))) (λ w. to_come w ≡ commit_writes self.entry.kept (cells self.entry.cells.now) (cells values.now)) (Unit {0}) }
    {
        Ok(Writes {
            kept: self.kept,
            target: self.next_target()?,
            values,
            next: 0,
        })
    }
}
