//! Lists of numbers: the values at first, and what is written to lent lists.
ghost use Rattle.std.specs.Prelude.{◌≡◌, ℕ, ◌*◌, ◌≤◌, length, slice_index};
ghost use Rattle.base.specs.Stores.{cells, Overwritten};
ghost use Rattle.controller.specs.Memory.{writes_in};

use crate::layout::*;
use retain::Write;

/// The values that the variables have at first.
pub(crate) fn first_values(firsts: &[u16; VARIABLES]) -> [u64; VARIABLES]
    ensures { cells result ≡ cells firsts.now }
{
    let mut values = [0; VARIABLES];
    // By index into room that is there: `map` over an array takes each number through an `Option`, and a start six times as long.
    for (i, first) in firsts.iter().enumerate() {
        values[i] = *first as u64;
    }
    values
}

/// Writes the variables' values to the memory.
pub(crate) fn store_values(memory: &mut [u64], values: &[u64; VARIABLES])
    requires { 64 ≤ length memory.old }
    ensures { Overwritten 0 64 (cells values.now) memory.old memory.new }
{
    memory[..VARIABLES].copy_from_slice(values);
}

/// Power goes: nothing is left but the device.
pub(crate) fn power_off(memory: &mut [u64])
    requires { 194 ≤ length memory.old }
    ensures { Overwritten 0 194 (λ k. 0) memory.old memory.new }
{
    memory[..DEVICE].fill(0);
}

/// Hands out a list of writes as pairs of numbers: the place in the device, and the number.
pub(crate) fn hand_out(list: &[Write], writes: &mut [u64])
    requires { 2 * length list.now ≤ length writes.old }
    ensures handed { writes_in writes.new 0 (length list.now) ≡ list.now }
    ensures beyond { (i : ℕ) → 2 * length list.now ≤ i → slice_index writes.new i ≡ slice_index writes.old i }
{
    // By index: of a list that was lent in pairs by `chunks_exact_mut` a proof knows nothing but the length afterwards.
    for (i, write) in list.iter().enumerate() {
        writes[2 * i] = write.cell as u64;
        writes[2 * i + 1] = write.value;
    }
}
