//! A memory that outlasts power cuts: two slots of cells, each a stamp, the kept values and the stamp again.
//!
//! Each function takes any cells. It refuses, and changes nothing, where a parameter doesn't fit: more than 64 values, a
//! device that isn't `2 * (kept + 2)` cells, a list shorter than it has to be; the first such parameter is told.
#![tactic(auto)]

ghost use Rattle.std.specs.Prelude.{◌≡◌, length};
ghost use Rattle.base.specs.Refusals.{Answered};
ghost use Rattle.retain.specs.History.{Retained, Ruled};
ghost use Rattle.retain.specs.Night.{Night};
ghost use Rattle.retain.specs.Entry.{shape_refusal, commit_refusal, cut_refusal, Formatted, Recovered, Committed, Interrupted};

use base::Refusal;
use slots::Device;
use writing::{write_cell, write_cell_cut};

mod slots;
mod writing;

/// One cell of the device, and what it is to hold.
#[derive(Clone, Copy, Debug, PartialEq, Eq)]
pub struct Write {
    pub cell: usize,
    pub value: u64,
}

/// Makes the device as it leaves the factory, with the first values.
pub fn format(kept: usize, device: &mut [u64], first: &[u64]) -> Result<(), Refusal>
    ensures { Answered result (shape_refusal kept device.old (length first.now)) (λ _. Formatted kept first.now device.new) (device.new ≡ device.old) }
{
    Device::new(kept, device, first.len())?;
    device.fill(0);
    device[0] = 1;
    device[1..kept + 1].copy_from_slice(&first[..kept]);
    device[kept + 1] = 1;
    Ok(())
}

/// Copies the values that the device holds to the front of `out`.
pub fn recover(kept: usize, device: &[u64], out: &mut [u64]) -> Result<(), Refusal>
    ensures { Answered result (shape_refusal kept device.now (length out.old)) (λ _. Recovered kept device.now out.old out.new) (out.new ≡ out.old) }
{
    let held = Device::new(kept, device, out.len())?;
    out[..kept].copy_from_slice(held.values());
    Ok(())
}

/// Commits the values: does the writes that change a cell, and hands them out in their order. Says how many they are.
/// Refuses a room for fewer than `kept + 2` writes, and then a stamp that can't be raised.
pub fn commit(
    kept: usize,
    device: &mut [u64],
    values: &[u64],
    writes: &mut [Write],
) -> Result<usize, Refusal>
    ensures { Answered result (commit_refusal kept device.old (length values.now) (length writes.old)) (λ n. Committed kept device.old values.now writes.old n device.new writes.new) ((device.new ≡ device.old) × (writes.new ≡ writes.old)) }
{
    let held = Device::new(kept, device, values.len())?;
    if writes.len() < kept + 2 {
        return Err(Refusal::Length(3));
    }
    // The room for the writes is lent, so they are counted beside it.
    let mut count = 0;
    for write in held.next_commit(values)? {
        if write_cell(device, write) {
            writes[count] = write;
            count += 1;
        }
    }
    Ok(count)
}

/// Commits the values till power goes at write `k`, which leaves `junk` in its cell. Only writes that change a cell count.
pub fn commit_cut(
    kept: usize,
    device: &mut [u64],
    values: &[u64],
    k: u64,
    junk: u64,
) -> Result<(), Refusal>
    ensures { Answered result (cut_refusal kept device.old (length values.now)) (λ _. Interrupted kept device.old values.now k junk device.new) (device.new ≡ device.old) }
{
    let held = Device::new(kept, device, values.len())?;
    let mut left = k;
    for write in held.next_commit(values)? {
        match write_cell_cut(device, write, left, junk) {
            Some(rest) => left = rest,
            None => return Ok(()),
        }
    }
    Ok(())
}

/// After any row of saves and cuts, recovery finds what the story says.
pub fn retention()
    ensures retained { Retained }
    ensures ruled { Ruled }
{}

/// A program that writes every cell can come to show values that nobody kept; this one doesn't.
pub fn night_of_cuts()
    ensures { Night }
{}
