//! The writes of a commit in their order, and the write of one cell, which is left out where the cell holds the value already.
ghost use Rattle.std.specs.Prelude.{◌≡◌, ◌+◌, ◌<◌, ◌≤◌, length};
ghost use Rattle.std.specs.Iterator.{YieldsFirst, item_count};
ghost use Rattle.base.specs.Stores.{cells};
ghost use Rattle.retain.specs.Entry.{slot_write, WriteCell, CutCell};

use super::Write;
use super::slots::Target;

/// The writes of a commit that are still to come: of the stamp, the values, and the stamp again, all of them counted by `next`.
#[derive(Drop)]
pub(crate) struct Writes<'a> {
    pub(crate) kept: usize,
    pub(crate) target: Target,
    pub(crate) values: &'a [u64],
    pub(crate) next: usize,
    ghost few: { kept ≤ 64 },
    ghost enough: { kept ≤ length values.now },
    ghost low: { target.cell ≤ kept + 2 },
    ghost counted: { next ≤ kept + 2 },
}

impl Writes<'_> {
    /// The write that `i` of them come before.
    fn at(&self, i: usize) -> Write
        requires { i < self.now.kept + 2 }
        ensures { result ≡ slot_write self.now.kept self.now.target (cells self.now.values.now) i }
    {
        let value = if i == 0 || i == self.kept + 1 {
            self.target.stamp
        } else {
            self.values[i - 1]
        };
        Write {
            cell: self.target.cell + i,
            value,
        }
    }
}

impl Iterator for Writes<'_> {
    ghost use Rattle.retain.specs.Commit.{to_come};

    type Item = Write;

    ghost next_gives = { YieldsFirst to_come };

    ghost remaining = { item_count to_come };

    fn next(&mut self) -> Option<Write> {
        if self.next == self.kept + 2 {
            return None;
        }
        let write = self.at(self.next);
        self.next += 1;
        Some(write)
    }
}

/// Writes a cell, unless it holds the value already. Says whether it did.
pub(crate) fn write_cell(device: &mut [u64], w: Write) -> bool
    requires { w.cell < length device.old }
    ensures { WriteCell device.old w result device.new }
{
    if device[w.cell] == w.value {
        return false;
    }
    device[w.cell] = w.value;
    true
}

/// Writes a cell, unless it holds the value already, if `left` writes are left before power goes; in the next one the
/// cell comes to hold junk. Says how many are left then, unless power went.
pub(crate) fn write_cell_cut(device: &mut [u64], w: Write, left: u64, junk: u64) -> Option<u64>
    requires { w.cell < length device.old }
    ensures { CutCell device.old w left junk result device.new }
{
    if left == 0 && device[w.cell] != w.value {
        device[w.cell] = junk;
        return None;
    }
    let done = write_cell(device, w);
    Some(left - done as u64)
}
