//! Operations on words, the faults that they note, and the counting of delays.
ghost use Rattle.std.specs.Prelude.{◌≡◌, ◌<◌, length};
ghost use Rattle.base.specs.declared.Op.TheVariants.{Div};
ghost use Rattle.base.specs.Delays.{delayed};
ghost use Rattle.base.specs.Stores.{cells};
ghost use Rattle.base.specs.Words.{apply_op, op_fault, first_of};

use super::Op;

impl Op {
    /// What it gives at two numbers, where a division by 0 notes its fault. They may be larger than words,
    /// so sums, differences and products are made of remainders: nothing passes 64 bits.
    pub fn apply(self, x: u64, y: u64, fault: &mut u64) -> u64
        ensures value { result ≡ apply_op self x y }
        ensures fault { fault.new ≡ first_of fault.old (op_fault self y) }
    {
        match self {
            Op::Add => (x % 65536 + y % 65536) % 65536,
            Op::Sub => (x % 65536 + 65536u64.saturating_sub(y)) % 65536,
            Op::Mul => (x % 65536) * (y % 65536) % 65536,
            Op::Div => quotient(x, y, fault),
            Op::Less => (x < y) as u64,
            Op::Equal => (x == y) as u64,
            Op::And => (x != 0 && y != 0) as u64,
            Op::Or => (x != 0 || y != 0) as u64,
        }
    }
}

/// A quotient; by 0 it is 0, and the fault 1 is noted.
fn quotient(x: u64, y: u64, fault: &mut u64) -> u64
    ensures value { result ≡ apply_op Div x y }
    ensures fault { fault.new ≡ first_of fault.old (op_fault Div y) }
{
    match x.checked_div(y) {
        Some(value) => value,
        None => {
            note(fault, 1);
            0
        }
    }
}

/// Notes a fault, or none; the first one stays.
pub fn note(fault: &mut u64, new: u64)
    ensures { fault.new ≡ first_of fault.old new }
{
    if *fault == 0 {
        *fault = new;
    }
}

/// Counts a delay on while its condition holds, and sets its output once the count is at the
/// preset. Does nothing where a variable is missing.
pub fn count_time(elapsed: u64, vars: &mut [u64], out: usize, counter: usize, preset: u16, on: bool)
    ensures counts { out < length vars.old → counter < length vars.old → cells vars.new ≡ delayed elapsed out counter preset on (cells vars.old) }
    ensures missing { (out < length vars.old → counter < length vars.old → ⊥) → vars.new ≡ vars.old }
{
    if out >= vars.len() || counter >= vars.len() {
        return;
    }
    let count = if on {
        vars[counter].saturating_add(elapsed).min(preset as u64)
    } else {
        0
    };
    vars[counter] = count;
    vars[out] = (on && preset as u64 <= count) as u64;
}
