//! Lent memory that holds numbers which no history leads to: a mark is set exactly where its number is 1, and values above 65,535 are taken as they are.
use base::Refusal;
use controller::{
    DEVICE, LAMP, MAX_DEVICE, MAX_MEMORY, VARIABLES, cut, device_length, force, free,
    memory_length, scan, start,
};
use std::test::Fail;

/// `v1 := v0 + 1; v6 := v3;`
const CODE: [u16; 24] = [
    1, 0, 0, 0, 0, 1, 0, 0, 4, 0, 0, 0, 2, 1, 0, 0, 1, 3, 0, 0, 2, 6, 0, 0,
];

/// Numbers that are not 1, though some of their bytes are.
const MARKS: [u64; 7] = [0, 2, 255, 257, 65537, 4294967297, 18446744073709551615];

/// A memory for two kept values that is on, as a start leaves a new one.
fn started() -> [u64; 202] {
    let mut memory = [0; 202];
    memory[192] = 1;
    memory[194] = 1;
    memory[197] = 1;
    memory
}

/// A scan of `CODE` over flags of inputs, with 8 at every point outside. Answers what goes out.
fn shown(inputs: &[u8; 64], memory: &mut [u64; 202]) -> Result<[u64; 64], Refusal> {
    let mut out = [9; 64];
    scan(
        2,
        inputs,
        &[0; 64],
        &CODE,
        &[8; 64],
        10,
        memory,
        &mut out,
        &mut [9; 8],
    )?;
    Ok(out)
}

// 64 values, 64 marks, 64 numbers, on and the lamp; then a device of two slots, each with a stamp before and after its values.
#[test]
fn lengths_follow_from_what_is_kept(rt: HostRuntime) {
    assert_eq!(rt; (VARIABLES, LAMP, DEVICE), (64, 193, 194));
    assert_eq!(rt;
        (device_length(0), device_length(2), device_length(64)),
        (4, 8, MAX_DEVICE)
    );
    assert_eq!(rt;
        (memory_length(0), memory_length(2), memory_length(64)),
        (198, 202, MAX_MEMORY)
    );
    assert_eq!(rt; (device_length(65), memory_length(u64::MAX)), (132, 326));
}

#[test]
fn it_is_on_where_the_number_is_1(rt: HostRuntime) {
    for mark in MARKS {
        let mut memory = started();
        memory[192] = mark;
        let before = memory;
        assert_eq!(rt; shown(&[0; 64], &mut memory), Err(Refusal::Off));
        assert_eq!(rt;
            cut(
                2,
                &[0; 64],
                &[0; 64],
                &CODE,
                &[8; 64],
                10,
                0,
                9,
                &mut memory,
            ),
            Err(Refusal::Off)
        );
        assert_eq!(rt; force(2, 3, 5, &mut memory), Err(Refusal::Off));
        assert_eq!(rt; free(2, 3, &mut memory), Err(Refusal::Off));
        assert!(rt; memory == before);
    }
}

// The lamp is written as 1 or 0: it stays lit by 1 alone.
#[test]
fn the_lamp_is_lit_where_the_number_is_1(rt: HostRuntime) -> Result<(), Fail> {
    let mut memory = started();
    memory[193] = 1;
    shown(&[0; 64], &mut memory)?;
    assert_eq!(rt; memory[193], 1);
    for mark in MARKS {
        memory[193] = mark;
        shown(&[0; 64], &mut memory)?;
        assert_eq!(rt; memory[193], 0);
    }
    Ok(())
}

// v3 holds 5 and is forced to 7, by 1 alone; the program puts it to v6.
#[test]
fn a_point_is_forced_where_the_number_is_1(rt: HostRuntime) -> Result<(), Fail> {
    let mut memory = started();
    memory[3] = 5;
    memory[131] = 7;
    for mark in MARKS {
        memory[67] = mark;
        let out = shown(&[0; 64], &mut memory)?;
        assert_eq!(rt; (out[3], out[6], memory[67], memory[131]), (5, 5, mark, 7));
    }
    memory[67] = 1;
    let out = shown(&[0; 64], &mut memory)?;
    assert_eq!(rt; (out[3], out[6], memory[67], memory[131]), (7, 7, 1, 7));
    Ok(())
}

// v3 holds 5 and is 8 outside.
#[test]
fn a_point_comes_from_outside_where_the_flag_is_1(rt: HostRuntime) -> Result<(), Fail> {
    let mut memory = started();
    memory[3] = 5;
    for flag in [0, 2, 3, 128, 255] {
        let mut inputs = [0; 64];
        inputs[3] = flag;
        let out = shown(&inputs, &mut memory)?;
        assert_eq!(rt; (out[3], out[6]), (5, 5));
    }
    let mut inputs = [0; 64];
    inputs[3] = 1;
    let out = shown(&inputs, &mut memory)?;
    assert_eq!(rt; (out[3], out[6]), (8, 8));
    Ok(())
}

// v0 is 2^40, whose sum with 1 is the word 1; v3 is forced to 70000. Both are copied whole, shown and kept as they are.
#[test]
fn large_numbers_stay_as_they_are(rt: HostRuntime) -> Result<(), Fail> {
    let large = 1 << 40;
    let mut memory = started();
    memory[0] = large;
    memory[1] = 65536;
    memory[67] = 1;
    memory[131] = 70000;
    let out = shown(&[0; 64], &mut memory)?;
    assert_eq!(rt; (out[0], out[1], out[3], out[6]), (large, 1, 70000, 70000));
    assert_eq!(rt;
        (memory[0], memory[1], memory[3], memory[6]),
        (large, 1, 70000, 70000)
    );
    assert_eq!(rt;
        (memory[198], memory[199], memory[200], memory[201]),
        (2, large, 1, 2)
    );
    start(2, &[4; 64], &mut memory)?;
    assert_eq!(rt;
        (memory[0], memory[1], memory[2], memory[3]),
        (large, 1, 4, 4)
    );
    Ok(())
}
