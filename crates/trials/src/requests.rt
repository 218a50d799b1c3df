//! Requests that the controller refuses: by which number, at which place, and that nothing lent is changed then.
use base::Refusal;
use controller::{cut, force, free, scan, start, works};
use std::process::Abort;

/// `v0 := 5;`
const CODE: [u16; 8] = [0, 5, 0, 0, 2, 0, 0, 0];

/// The first stamp that can't be raised.
const STAMP_END: u64 = 1 << 62;

/// How long the lists are that a scan is lent, in the order of the call: inputs, first values, outside, memory, outputs and writes.
type Lengths = [usize; 6];

/// Those that two kept values want.
const RIGHT: Lengths = [64, 64, 64, 202, 64, 8];

/// What is told of a scan with so many kept values and lists so long; all that it is lent to write to holds 9, so that it is off.
fn scan_with(rt: &impl Abort, kept: u64, lengths: Lengths, elapsed: u64) -> Result<u64, Refusal> {
    let (inputs, firsts, outside) = ([0; 65], [0; 65], [0; 65]);
    let mut memory = [9; 203];
    let mut out = [9; 65];
    let mut writes = [9; 9];
    let told = scan(
        kept,
        &inputs[..lengths[0].min(65)],
        &firsts[..lengths[1].min(65)],
        &CODE,
        &outside[..lengths[2].min(65)],
        elapsed,
        &mut memory[..lengths[3].min(203)],
        &mut out[..lengths[4].min(65)],
        &mut writes[..lengths[5].min(9)],
    );
    assert!(rt; memory == [9; 203] && out == [9; 65] && writes == [9; 9]);
    told
}

/// What is told of a cut, likewise; it has no outputs and no writes.
fn cut_with(rt: &impl Abort, kept: u64, lengths: Lengths, elapsed: u64) -> Result<u64, Refusal> {
    let (inputs, firsts, outside) = ([0; 65], [0; 65], [0; 65]);
    let mut memory = [9; 203];
    let told = cut(
        kept,
        &inputs[..lengths[0].min(65)],
        &firsts[..lengths[1].min(65)],
        &CODE,
        &outside[..lengths[2].min(65)],
        elapsed,
        0,
        9,
        &mut memory[..lengths[3].min(203)],
    );
    assert!(rt; memory == [9; 203]);
    told
}

// Each row has one list more that is right, so that the first wrong one is told; the last is off, and at no time.
#[test]
fn a_scan_tells_the_first_that_is_wrong(rt: HostRuntime) {
    let rows = [
        (65, [0, 0, 0, 0, 0, 0], Refusal::Length(0)),
        (64, [0, 0, 0, 0, 0, 0], Refusal::Length(1)),
        (2, [64, 0, 0, 0, 0, 0], Refusal::Length(2)),
        (2, [64, 64, 0, 0, 0, 0], Refusal::Length(4)),
        (2, [64, 64, 64, 0, 0, 0], Refusal::Length(6)),
        (2, [64, 64, 64, 202, 0, 0], Refusal::Length(7)),
        (2, [64, 64, 64, 202, 64, 0], Refusal::Length(8)),
        (2, RIGHT, Refusal::Off),
    ];
    for (kept, lengths, refusal) in rows {
        assert_eq!(rt; scan_with(&rt, kept, lengths, 65536), Err(refusal));
    }
}

#[test]
fn a_cut_tells_the_first_that_is_wrong(rt: HostRuntime) {
    let rows = [
        (65, [0, 0, 0, 0, 0, 0], Refusal::Length(0)),
        (64, [0, 0, 0, 0, 0, 0], Refusal::Length(1)),
        (2, [64, 0, 0, 0, 0, 0], Refusal::Length(2)),
        (2, [64, 64, 0, 0, 0, 0], Refusal::Length(4)),
        (2, [64, 64, 64, 0, 0, 0], Refusal::Length(8)),
        (2, RIGHT, Refusal::Off),
    ];
    for (kept, lengths, refusal) in rows {
        assert_eq!(rt; cut_with(&rt, kept, lengths, 65536), Err(refusal));
    }
}

// One number too few and one too many, in each list alone.
#[test]
fn lists_have_their_length_exactly(rt: HostRuntime) {
    let places = [1, 2, 4, 6, 7, 8];
    for (i, place) in places.iter().enumerate() {
        let refusal = Err(Refusal::Length(*place));
        let mut lengths = RIGHT;
        lengths[i] -= 1;
        assert_eq!(rt; scan_with(&rt, 2, lengths, 1), refusal);
        if i < 3 {
            assert_eq!(rt; cut_with(&rt, 2, lengths, 1), refusal);
        }
        lengths[i] = RIGHT[i] + 1;
        assert_eq!(rt; scan_with(&rt, 2, lengths, 1), refusal);
    }
    assert_eq!(rt;
        cut_with(&rt, 2, [64, 64, 64, 201, 0, 0], 1),
        Err(Refusal::Length(8))
    );
    assert_eq!(rt;
        cut_with(&rt, 2, [64, 64, 64, 203, 0, 0], 1),
        Err(Refusal::Length(8))
    );
}

/// So many kept values, so many first values and so long a memory, and the place of the first that is wrong.
const WRONG: [(u64, usize, usize, u64); 6] = [
    (65, 0, 0, 0),
    (64, 0, 0, 1),
    (2, 63, 202, 1),
    (2, 65, 202, 1),
    (1, 64, 202, 2),
    (3, 64, 202, 2),
];

#[test]
fn works_tells_the_first_that_is_wrong(rt: HostRuntime) {
    let mut memory = [9; 202];
    for (kept, firsts, length, place) in WRONG {
        let told = works(
            kept,
            &[0; 65][..firsts.min(65)],
            &mut memory[..length.min(202)],
        );
        assert_eq!(rt; told, Err(Refusal::Length(place)));
    }
    assert!(rt; memory == [9; 202]);
}

#[test]
fn a_start_tells_the_first_that_is_wrong(rt: HostRuntime) {
    let mut memory = [9; 202];
    for (kept, firsts, length, place) in WRONG {
        let told = start(
            kept,
            &[0; 65][..firsts.min(65)],
            &mut memory[..length.min(202)],
        );
        assert_eq!(rt; told, Err(Refusal::Length(place)));
    }
    assert!(rt; memory == [9; 202]);
}

// 64 values can be kept: 194 numbers, and a device of 132.
#[test]
fn all_variables_can_be_kept(rt: HostRuntime) {
    let mut memory = [9; 326];
    assert_eq!(rt; works(64, &[7; 64], &mut memory), Ok(0));
    assert_eq!(rt; (memory[194], memory[258], memory[259]), (1, 7, 1));
    assert_eq!(rt; start(64, &[8; 64], &mut memory), Ok(0));
    assert_eq!(rt; (memory[0], memory[63], memory[192]), (7, 7, 1));
}

// Off, then a point that is none, then a number that is no word.
#[test]
fn a_force_tells_the_first_that_is_wrong(rt: HostRuntime) {
    let mut memory = [9; 202];
    assert_eq!(rt; force(65, 64, 65536, &mut memory), Err(Refusal::Length(0)));
    assert_eq!(rt; force(1, 64, 65536, &mut memory), Err(Refusal::Length(3)));
    assert_eq!(rt; force(3, 64, 65536, &mut memory), Err(Refusal::Length(3)));
    assert_eq!(rt; force(2, 64, 65536, &mut memory), Err(Refusal::Off));
    memory[192] = 1;
    let before = memory;
    assert_eq!(rt; force(2, 64, 65536, &mut memory), Err(Refusal::Point(0)));
    assert_eq!(rt; force(2, 1 << 63, 0, &mut memory), Err(Refusal::Point(0)));
    assert_eq!(rt; force(2, 63, 65536, &mut memory), Err(Refusal::Point(1)));
    assert!(rt; memory == before);
    assert_eq!(rt; force(2, 63, 65535, &mut memory), Ok(0));
    assert_eq!(rt; (memory[127], memory[191]), (1, 65535));
}

#[test]
fn a_free_tells_the_first_that_is_wrong(rt: HostRuntime) {
    let mut memory = [9; 202];
    assert_eq!(rt; free(65, 64, &mut memory), Err(Refusal::Length(0)));
    assert_eq!(rt; free(1, 64, &mut memory), Err(Refusal::Length(2)));
    assert_eq!(rt; free(3, 64, &mut memory), Err(Refusal::Length(2)));
    assert_eq!(rt; free(2, 64, &mut memory), Err(Refusal::Off));
    memory[192] = 1;
    let before = memory;
    assert_eq!(rt; free(2, 64, &mut memory), Err(Refusal::Point(0)));
    assert_eq!(rt; free(2, 1 << 63, &mut memory), Err(Refusal::Point(0)));
    assert!(rt; memory == before);
    assert_eq!(rt; free(2, 63, &mut memory), Ok(0));
    assert_eq!(rt; (memory[127], memory[191]), (0, 9));
}

/// A scan of `CODE` that keeps two values, so long after the last.
fn scan_at(
    elapsed: u64,
    memory: &mut [u64; 202],
    out: &mut [u64; 64],
    writes: &mut [u64; 8],
) -> Result<u64, Refusal> {
    scan(
        2, &[0; 64], &[0; 64], &CODE, &[0; 64], elapsed, memory, out, writes,
    )
}

/// A cut at its first write, likewise.
fn cut_at(elapsed: u64, memory: &mut [u64; 202]) -> Result<u64, Refusal> {
    cut(
        2, &[0; 64], &[0; 64], &CODE, &[0; 64], elapsed, 0, 9, memory,
    )
}

/// A memory that is on, with a slot that begins at a place under a stamp and holds 3 and 4.
fn stamped(base: usize, stamp: u64) -> [u64; 202] {
    let mut memory = [0; 202];
    memory[192] = 1;
    let slot = [stamp, 3, 4, stamp];
    if base == 198 {
        memory[198..].copy_from_slice(&slot);
    } else {
        memory[194..198].copy_from_slice(&slot);
    }
    memory
}

// At a time that is no word, and then by the stamp, in whichever slot it stands.
#[test]
fn a_stamp_that_is_too_large_is_told_last(rt: HostRuntime) {
    for base in [194, 198] {
        for stamp in [STAMP_END, STAMP_END + 1, u64::MAX] {
            let mut memory = stamped(base, stamp);
            let before = memory;
            let mut out = [9; 64];
            let mut writes = [9; 8];
            assert_eq!(rt;
                scan_at(65536, &mut memory, &mut out, &mut writes),
                Err(Refusal::Time)
            );
            assert_eq!(rt; cut_at(65536, &mut memory), Err(Refusal::Time));
            assert_eq!(rt;
                scan_at(65535, &mut memory, &mut out, &mut writes),
                Err(Refusal::Stamp)
            );
            assert_eq!(rt; cut_at(65535, &mut memory), Err(Refusal::Stamp));
            assert!(rt; memory == before && out == [9; 64] && writes == [9; 8]);
        }
    }
}

// The largest stamp that can be raised: 5 and 4 go to the other slot.
#[test]
fn the_last_stamp_is_taken(rt: HostRuntime) {
    let mut memory = stamped(194, STAMP_END - 1);
    let mut out = [9; 64];
    let mut writes = [9; 8];
    memory[0] = 3;
    memory[1] = 4;
    assert_eq!(rt; scan_at(65535, &mut memory, &mut out, &mut writes), Ok(4));
    assert_eq!(rt; writes, [4, STAMP_END, 5, 5, 6, 4, 7, STAMP_END]);
    assert_eq!(rt;
        (memory[198], memory[201], out[0], out[1]),
        (STAMP_END, STAMP_END, 5, 4)
    );
    assert_eq!(rt;
        scan_at(65535, &mut memory, &mut out, &mut writes),
        Err(Refusal::Stamp)
    );
}
