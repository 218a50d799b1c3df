//! Rows of calls with their numbers worked by hand, and what a caller learns of such a row.
ghost use Rattle.std.specs.Prelude.{◌≡◌, [], ◌∷◌, OnOk};
ghost use Rattle.base.specs.Stores.{cells};
ghost use Rattle.semantics.specs.Eval.{Program};
ghost use Rattle.compiler.specs.Right.{Compiled};
ghost use Rattle.controller.specs.World.{outputs, start as start_event, scan as scan_event, force as force_event};
ghost use Rattle.controller.specs.Story.{tale};
ghost use Rattle.controller.specs.Decided.{decided};
ghost use Rattle.controller.specs.Memory.{project};

use base::Refusal;
use controller::{cut, force, free, scan, start, works};
use std::test::Fail;

/// `v0 := v2; v1 := v3;`
const COPY: [u16; 16] = [1, 2, 0, 0, 2, 0, 0, 0, 1, 3, 0, 0, 2, 1, 0, 0];

/// `v4 := 100 / v2;`
const DIVIDE: [u16; 16] = [0, 100, 0, 0, 1, 2, 0, 0, 4, 3, 0, 0, 2, 4, 0, 0];

const FIRSTS: [u16; 64] = [0; 64];

/// v2 and v3 come from outside.
fn inputs() -> [u8; 64] {
    let mut inputs = [0; 64];
    inputs[2] = 1;
    inputs[3] = 1;
    inputs
}

/// v2 and v3 as they are outside.
fn outside(v2: u16, v3: u16) -> [u16; 64] {
    let mut outside = [0; 64];
    outside[2] = v2;
    outside[3] = v3;
    outside
}

/// What a caller learns of a row of calls: the outputs are those of the whole history's tale.
fn first_scans(
    kept: u64,
    inputs: &[u8],
    firsts: &[u16],
    code: &[u16],
    outside: &[u16],
    memory: &mut [u64],
    out: &mut [u64],
    writes: &mut [u64],
) -> Result<u64, Refusal>
    ensures { OnOk result ((means : Program) → Compiled 64 means code.now → cells out.new ≡ outputs (tale (project kept inputs.now firsts.now means) (decided (project kept inputs.now firsts.now means) (scan_event (cells outside.now) 20 ∷ force_event 2 1 ∷ scan_event (cells outside.now) 10 ∷ start_event ∷ []))).live) }
{
    works(kept, firsts, memory)?;
    start(kept, firsts, memory)?;
    scan(kept, inputs, firsts, code, outside, 10, memory, out, writes)?;
    force(kept, 2, 1, memory)?;
    scan(kept, inputs, firsts, code, outside, 20, memory, out, writes)
}

/// A scan of a controller that keeps v0 and v1, and has `COPY`.
fn scan_two(
    v2: u16,
    v3: u16,
    memory: &mut [u64; 202],
    out: &mut [u64; 64],
    writes: &mut [u64; 8],
) -> Result<u64, Refusal> {
    scan(
        2,
        &inputs(),
        &FIRSTS,
        &COPY,
        &outside(v2, v3),
        10,
        memory,
        out,
        writes,
    )
}

/// The cells of the device, by the last eight of the memory.
fn device(memory: &[u64; 202]) -> [u64; 8] {
    let mut cells = [0; 8];
    cells.copy_from_slice(&memory[194..202]);
    cells
}

// Saved as 7 0 and as 7 1, the latter cut in its last write too, and then as 8 1.
#[test]
fn two_kept_values(rt: HostRuntime) -> Result<(), Fail> {
    let mut memory = [9; 202];
    let mut out = [9; 64];
    let mut writes = [9; 8];
    works(2, &FIRSTS, &mut memory)?;
    assert_eq!(rt; device(&memory), [1, 0, 0, 1, 0, 0, 0, 0]);
    start(2, &FIRSTS, &mut memory)?;
    assert_eq!(rt; scan_two(7, 0, &mut memory, &mut out, &mut writes)?, 3);
    assert_eq!(rt; device(&memory), [1, 0, 0, 1, 2, 7, 0, 2]);
    assert_eq!(rt; writes, [4, 2, 5, 7, 7, 2, 9, 9]);
    assert_eq!(rt; (out[0], out[1], out[2]), (7, 0, 7));
    let mut other = memory;
    assert_eq!(rt; scan_two(7, 1, &mut other, &mut out, &mut writes)?, 4);
    assert_eq!(rt; device(&other), [3, 7, 1, 3, 2, 7, 0, 2]);
    cut(
        2,
        &inputs(),
        &FIRSTS,
        &COPY,
        &outside(7, 1),
        10,
        3,
        9,
        &mut memory,
    )?;
    assert_eq!(rt; device(&memory), [3, 7, 1, 9, 2, 7, 0, 2]);
    assert_eq!(rt; (memory[0], memory[1], memory[192]), (0, 0, 0));
    start(2, &FIRSTS, &mut memory)?;
    assert_eq!(rt; (memory[0], memory[1], memory[192]), (7, 0, 1));
    assert_eq!(rt; scan_two(8, 1, &mut memory, &mut out, &mut writes)?, 2);
    assert_eq!(rt; device(&memory), [3, 8, 1, 3, 2, 7, 0, 2]);
    assert_eq!(rt; writes, [1, 8, 3, 3, 2, 1, 3, 3]);
    Ok(())
}

/// A scan of a controller that keeps nothing, and has `DIVIDE`. Answers what goes out at v4, and whether the lamp is lit.
fn quotient(v2: u16, memory: &mut [u64; 198]) -> Result<(u64, u64), Refusal> {
    let mut out = [9; 64];
    scan(
        0,
        &inputs(),
        &FIRSTS,
        &DIVIDE,
        &outside(v2, 0),
        10,
        memory,
        &mut out,
        &mut [9; 4],
    )?;
    Ok((out[4], memory[193]))
}

// A quotient by 0 lights the lamp till the next start; a forced v4 shows 5 whatever is put there, and a forced v2 is seen by the program.
#[test]
fn forced_points_and_the_lamp(rt: HostRuntime) -> Result<(), Fail> {
    let mut memory = [9; 198];
    works(0, &FIRSTS, &mut memory)?;
    start(0, &FIRSTS, &mut memory)?;
    assert_eq!(rt; quotient(7, &mut memory)?, (14, 0));
    force(0, 4, 5, &mut memory)?;
    assert_eq!(rt; quotient(0, &mut memory)?, (5, 1));
    assert_eq!(rt; memory[4], 0);
    assert_eq!(rt; quotient(100, &mut memory)?, (5, 1));
    free(0, 4, &mut memory)?;
    assert_eq!(rt; quotient(100, &mut memory)?, (1, 1));
    force(0, 2, 50, &mut memory)?;
    assert_eq!(rt; quotient(100, &mut memory)?, (2, 1));
    start(0, &FIRSTS, &mut memory)?;
    assert_eq!(rt; quotient(100, &mut memory)?, (1, 0));
    Ok(())
}

// The first check that fails is told, with its place.
#[test]
fn refusals(rt: HostRuntime) -> Result<(), Fail> {
    let mut memory = [9; 202];
    let mut out = [9; 64];
    let mut writes = [9; 8];
    assert_eq!(rt; works(65, &[], &mut []), Err(Refusal::Length(0)));
    assert_eq!(rt; start(2, &[], &mut []), Err(Refusal::Length(1)));
    assert_eq!(rt; start(1, &FIRSTS, &mut memory), Err(Refusal::Length(2)));
    assert_eq!(rt; force(2, 64, 0, &mut memory), Err(Refusal::Off));
    assert_eq!(rt;
        scan_two(7, 0, &mut memory, &mut out, &mut writes),
        Err(Refusal::Off)
    );
    assert_eq!(rt; memory, [9; 202]);
    works(2, &FIRSTS, &mut memory)?;
    start(2, &FIRSTS, &mut memory)?;
    assert_eq!(rt; force(2, 64, 0, &mut memory), Err(Refusal::Point(0)));
    assert_eq!(rt; force(2, 63, 65536, &mut memory), Err(Refusal::Point(1)));
    memory[194] = 1 << 62;
    memory[197] = 1 << 62;
    assert_eq!(rt;
        scan_two(7, 0, &mut memory, &mut out, &mut writes),
        Err(Refusal::Stamp)
    );
    assert_eq!(rt; (out[0], writes[0], memory[0]), (9, 9, 0));
    Ok(())
}

#[test]
fn a_row_of_calls(rt: HostRuntime) -> Result<(), Fail> {
    let mut memory = [9; 198];
    let mut out = [9; 64];
    first_scans(
        0,
        &inputs(),
        &FIRSTS,
        &DIVIDE,
        &outside(7, 0),
        &mut memory,
        &mut out,
        &mut [9; 4],
    )?;
    assert_eq!(rt; (out[2], out[4]), (1, 100));
    Ok(())
}
