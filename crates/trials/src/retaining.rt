//! A small device by its cells, every cut of three saves beside a plain story, and what is refused.
use base::Refusal;
use retain::{Write, commit, commit_cut, format, recover};
use std::process::Abort;
use std::test::Fail;

const NONE: Write = Write { cell: 0, value: 0 };

/// What a cut may leave in a cell: among it the old and the new stamp of each of three saves.
const JUNKS: [u64; 6] = [0, 1, 2, 3, 4, 9];

/// So many cuts: at each of four writes or after them, with each junk.
const CUTS: usize = 30;

/// A plain story of a save that is cut at write `k` of `n`: the old values are found before the last write, the new ones
/// after it, and in the last write either.
fn story_says(rt: &impl Abort, k: u64, n: u64, old: [u64; 2], next: [u64; 2], found: [u64; 2]) {
    if k >= n {
        assert_eq!(rt; found, next);
    } else if k + 1 < n {
        assert_eq!(rt; found, old);
    } else {
        assert!(rt; found == old || found == next);
    }
}

/// Saves two values and is cut. The story goes on with what is found.
fn save_cut(
    rt: &impl Abort,
    device: &mut [u64; 8],
    story: &mut [u64; 2],
    next: [u64; 2],
    cut: usize,
) -> Result<(), Fail> {
    let k = cut as u64 % 5;
    let mut whole = *device;
    let mut writes = [NONE; 4];
    let n = commit(2, &mut whole, &next, &mut writes)? as u64;
    commit_cut(2, device, &next, k, JUNKS[cut / 5 % 6])?;
    assert!(rt; k < n || *device == whole);
    let mut found = [5; 2];
    recover(2, device, &mut found)?;
    story_says(rt, k, n, *story, next, found);
    *story = found;
    Ok(())
}

/// Three saves, each cut.
fn three_saves(rt: &impl Abort, a: usize, b: usize, c: usize) -> Result<(), Fail> {
    let mut device = [9; 8];
    let mut story = [0; 2];
    format(2, &mut device, &story)?;
    save_cut(rt, &mut device, &mut story, [7, 0], a)?;
    save_cut(rt, &mut device, &mut story, [7, 1], b)?;
    save_cut(rt, &mut device, &mut story, [8, 1], c)
}

#[test]
fn every_cut(rt: HostRuntime) -> Result<(), Fail> {
    for a in 0..CUTS {
        for b in 0..CUTS {
            for c in 0..CUTS {
                three_saves(&rt, a, b, c)?;
            }
        }
    }
    Ok(())
}

// Saved as 7 0 and as 7 1, the latter cut in its last write, and then as 8 1.
#[test]
fn two_values(rt: HostRuntime) -> Result<(), Fail> {
    let mut device = [9; 8];
    let mut writes = [NONE; 4];
    let mut out = [5; 2];
    format(2, &mut device, &[0, 0])?;
    assert_eq!(rt; device, [1, 0, 0, 1, 0, 0, 0, 0]);
    assert_eq!(rt; commit(2, &mut device, &[7, 0], &mut writes)?, 3);
    assert_eq!(rt; device, [1, 0, 0, 1, 2, 7, 0, 2]);
    commit_cut(2, &mut device, &[7, 1], 3, 9)?;
    assert_eq!(rt; device, [3, 7, 1, 9, 2, 7, 0, 2]);
    recover(2, &device, &mut out)?;
    assert_eq!(rt; out, [7, 0]);
    assert_eq!(rt; commit(2, &mut device, &[8, 1], &mut writes)?, 2);
    assert_eq!(rt; device, [3, 8, 1, 3, 2, 7, 0, 2]);
    assert_eq!(rt; writes[0], Write { cell: 1, value: 8 });
    assert_eq!(rt; writes[1], Write { cell: 3, value: 3 });
    recover(2, &device, &mut out)?;
    assert_eq!(rt; out, [8, 1]);
    Ok(())
}

// The other slot each time: 7 0 into the second, 7 1 into the first.
#[test]
fn saves_take_turns(rt: HostRuntime) -> Result<(), Fail> {
    let mut device = [1, 0, 0, 1, 0, 0, 0, 0];
    let mut writes = [NONE; 4];
    let mut out = [5; 2];
    assert_eq!(rt; commit(2, &mut device, &[7, 0], &mut writes)?, 3);
    assert_eq!(rt; device, [1, 0, 0, 1, 2, 7, 0, 2]);
    assert_eq!(rt; writes[1], Write { cell: 5, value: 7 });
    assert_eq!(rt; commit(2, &mut device, &[7, 1], &mut writes)?, 4);
    assert_eq!(rt; device, [3, 7, 1, 3, 2, 7, 0, 2]);
    assert_eq!(rt; writes[2], Write { cell: 2, value: 1 });
    recover(2, &device, &mut out)?;
    assert_eq!(rt; out, [7, 1]);
    Ok(())
}

// The place is the parameter's, counted from 0.
#[test]
fn refusals(rt: HostRuntime) -> Result<(), Fail> {
    let mut device = [1, 1, 0, 0];
    let mut out = [5; 2];
    assert_eq!(rt; format(65, &mut device, &[]), Err(Refusal::Length(0)));
    assert_eq!(rt; format(1, &mut device, &[]), Err(Refusal::Length(1)));
    assert_eq!(rt;
        recover(1, &[1, 7, 1, 0, 0, 0], &mut []),
        Err(Refusal::Length(2))
    );
    assert_eq!(rt;
        commit(0, &mut device, &[], &mut [NONE; 1]),
        Err(Refusal::Length(3))
    );
    let end = 1 << 62;
    assert_eq!(rt;
        commit_cut(0, &mut [end, end, 0, 0], &[], 0, 9),
        Err(Refusal::Stamp)
    );
    assert_eq!(rt; commit(0, &mut device, &[], &mut [NONE; 2]), Ok(2));
    assert_eq!(rt; device, [1, 1, 2, 2]);
    recover(0, &device, &mut out)?;
    assert_eq!(rt; out, [5, 5]);
    Ok(())
}
