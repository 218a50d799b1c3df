//! The entries of a controller over lent memory: works, start, scan, cut, force and free.
//!
//! Their names and parameters, and that each answers a number, are a rule of the project: they are called by numbers and slices.
#![tactic(auto)]

ghost use Rattle.std.specs.Prelude.{◌≡◌};
ghost use Rattle.base.specs.Stores.{cells};
ghost use Rattle.base.specs.Refusals.{Answered};
ghost use Rattle.controller.specs.Promises.{Survives, Ruled, StartFinds, ForceStays, WordsStay, StampsLast};
ghost use Rattle.controller.specs.Memory.{project};
ghost use Rattle.controller.specs.Requests.{start_refusal, force_refusal, free_refusal, scan_refusal, cut_refusal};
ghost use Rattle.controller.specs.Entries.{EachMeaning, New, Started, Forced, Freed, Scanned, CutOff};

use base::Refusal;
use checks::*;
use given::Given;
use layout::*;
use lent::*;
use memory::Memory;
use retain::{Write, commit, commit_cut, format, recover};

mod checks;
mod given;
mod layout;
mod lent;
mod memory;

pub use layout::{DEVICE, LAMP, MAX_DEVICE, MAX_MEMORY, VARIABLES, device_length, memory_length};

/// No write, to begin a list of writes with.
const NONE: Write = Write { cell: 0, value: 0 };

/// How many writes a commit takes at most.
const MAX_WRITES: usize = VARIABLES + 2;

/// The memory of a controller as it leaves the factory.
pub fn works(kept: u64, firsts: &[u16], memory: &mut [u64]) -> Result<u64, Refusal>
    ensures { Answered result (start_refusal kept firsts.now memory.old) (λ n. (n ≡ 0) × New kept firsts.now memory.new) (memory.new ≡ memory.old) }
{
    let values = first_values(check_start(kept, firsts, memory)?);
    format(kept as usize, &mut memory[DEVICE..], &values)?;
    power_off(memory);
    Ok(0)
}

/// Power comes: kept values from the device, the others as at first, nothing forced, the lamp out.
pub fn start(kept: u64, firsts: &[u16], memory: &mut [u64]) -> Result<u64, Refusal>
    ensures { Answered result (start_refusal kept firsts.now memory.old) (λ n. (n ≡ 0) × Started kept firsts.now memory.old memory.new) (memory.new ≡ memory.old) }
{
    let mut values = first_values(check_start(kept, firsts, memory)?);
    recover(kept as usize, &memory[DEVICE..], &mut values)?;
    store_values(memory, &values);
    memory[FORCED..ON].fill(0);
    memory[ON] = 1;
    memory[LAMP] = 0;
    Ok(0)
}

/// A point is forced to a number.
pub fn force(kept: u64, point: u64, number: u64, memory: &mut [u64]) -> Result<u64, Refusal>
    ensures { Answered result (force_refusal kept point number memory.old) (λ n. (n ≡ 0) × Forced point number memory.old memory.new) (memory.new ≡ memory.old) }
{
    let i = check_point(kept, point, memory, 3)?;
    if number > MAX_WORD {
        return Err(Refusal::Point(1));
    }
    memory[FORCED + i] = 1;
    memory[FORCE + i] = number;
    Ok(0)
}

/// A point is freed.
pub fn free(kept: u64, point: u64, memory: &mut [u64]) -> Result<u64, Refusal>
    ensures { Answered result (free_refusal kept point memory.old) (λ n. (n ≡ 0) × Freed point memory.old memory.new) (memory.new ≡ memory.old) }
{
    let i = check_point(kept, point, memory, 2)?;
    memory[FORCED + i] = 0;
    Ok(0)
}

/// One scan: inputs, the program, the commit of the kept values, outputs. Answers how many writes it handed out.
/// Whatever the code is, the scan runs it as the machine does; where it is right for a program, that is the program's meaning.
/// Nothing lent is written before the commit is taken, which is refused for its stamp.
pub fn scan(
    kept: u64,
    inputs: &[u8],
    firsts: &[u16],
    code: &[u16],
    outside: &[u16],
    gone: u64,
    memory: &mut [u64],
    out: &mut [u64],
    writes: &mut [u64],
) -> Result<u64, Refusal>
    ensures { Answered result (scan_refusal kept inputs.now firsts.now outside.now gone memory.old out.old writes.old) (λ n. EachMeaning code.now (λ q. Scanned (project kept inputs.now firsts.now q) (cells outside.now) gone memory.old writes.old memory.new out.new writes.new n)) ((memory.new ≡ memory.old) × (out.new ≡ out.old) × (writes.new ≡ writes.old)) }
{
    let given = Given::new(kept, inputs, firsts, code, outside)?;
    let held = Memory::new(kept, memory, 6)?;
    check_length(out.len(), VARIABLES, 7)?;
    check_length(writes.len(), device_length(kept), 8)?;
    held.check_ready(gone)?;
    let ran = given.run(gone, held);
    let shown = held.outputs(&ran.values);
    let mut list = [NONE; MAX_WRITES];
    let n = commit(kept as usize, &mut memory[DEVICE..], &ran.values, &mut list)?;
    hand_out(&list[..n], writes);
    store_values(memory, &ran.values);
    memory[LAMP] = ran.lamp as u64;
    out.copy_from_slice(&shown);
    Ok(n as u64)
}

/// A scan whose commit is cut at write `k`, with junk in that cell: the power is off then.
pub fn cut(
    kept: u64,
    inputs: &[u8],
    firsts: &[u16],
    code: &[u16],
    outside: &[u16],
    gone: u64,
    k: u64,
    junk: u64,
    memory: &mut [u64],
) -> Result<u64, Refusal>
    ensures { Answered result (cut_refusal kept inputs.now firsts.now outside.now gone memory.old) (λ n. (n ≡ 0) × EachMeaning code.now (λ q. CutOff (project kept inputs.now firsts.now q) (cells outside.now) gone k junk memory.old memory.new)) (memory.new ≡ memory.old) }
{
    let given = Given::new(kept, inputs, firsts, code, outside)?;
    let held = Memory::new(kept, memory, 8)?;
    held.check_ready(gone)?;
    let ran = given.run(gone, held);
    commit_cut(kept as usize, &mut memory[DEVICE..], &ran.values, k, junk)?;
    power_off(memory);
    Ok(0)
}

/// After every history the controller is as the story says, told without slots and stamps: what it shows, and what a start would find.
pub fn kept_values_survive()
    ensures { Survives }
{}

/// A finished scan saves; a cut leaves what a start would have found before it or what it was to save: the first before the last write, the second
/// after it, and in that write either.
pub fn scans_save_and_cuts_choose()
    ensures { Ruled }
{}

/// A start finds the kept values, and everything else as at first.
pub fn start_finds_kept_values()
    ensures { StartFinds }
{}

/// A forced point shows its number until it is freed or the power goes.
pub fn forced_points_stay()
    ensures { ForceStays }
{}

/// Values, outputs and kept values are words, after every history that brings words.
pub fn words_stay_words()
    ensures { WordsStay }
{}

/// A stamp rises by at most one with an event: at a hundred scans a second it is refused after more than a billion years.
pub fn stamps_last()
    ensures { StampsLast }
{}
