//! Every instruction, every operation, and every way to be trapped.
use std::process::Abort;
use vm::{Outcome, run};

/// A code, and what it leaves of the variables 7, 3, 0 and 9 and of no fault, 3 after the last run.
type Case = (&'static [u16], [u64; 4], u64);

/// Codes that come to their end.
static FINISHED: [Case; 18] = [
    // push 5, store v2
    (&[0, 5, 0, 0, 2, 2, 0, 0], [7, 3, 5, 9], 0),
    // load v0, store v2
    (&[1, 0, 0, 0, 2, 2, 0, 0], [7, 3, 7, 9], 0),
    // store v0, where nothing is on the stack
    (&[2, 0, 0, 0], [0, 3, 0, 9], 0),
    // not v0, and not v2, into v3
    (&[1, 0, 0, 0, 3, 0, 0, 0, 2, 3, 0, 0], [7, 3, 0, 0], 0),
    (&[1, 2, 0, 0, 3, 0, 0, 0, 2, 3, 0, 0], [7, 3, 0, 1], 0),
    // jump over the store of v0
    (&[5, 1, 0, 0, 2, 0, 0, 0, 2, 1, 0, 0], [7, 0, 0, 9], 0),
    // jump over it if v2 is 0, which it is, and if v1 is 0, which it is not
    (
        &[1, 2, 0, 0, 6, 1, 0, 0, 2, 0, 0, 0, 2, 1, 0, 0],
        [7, 0, 0, 9],
        0,
    ),
    (
        &[1, 1, 0, 0, 6, 1, 0, 0, 2, 0, 0, 0, 2, 1, 0, 0],
        [0, 0, 0, 9],
        0,
    ),
    // add 2 three times, once and never, and store it in v2
    (
        &[7, 3, 3, 0, 0, 2, 0, 0, 4, 0, 0, 0, 8, 3, 0, 0, 2, 2, 0, 0],
        [7, 3, 6, 9],
        0,
    ),
    (
        &[7, 1, 3, 0, 0, 2, 0, 0, 4, 0, 0, 0, 8, 3, 0, 0, 2, 2, 0, 0],
        [7, 3, 2, 9],
        0,
    ),
    (
        &[7, 0, 3, 0, 0, 2, 0, 0, 4, 0, 0, 0, 8, 3, 0, 0, 2, 2, 0, 0],
        [7, 3, 0, 9],
        0,
    ),
    // delays on v0 of 5 and of 3, which count in v2 and set v1, and one on v2, which is 0
    (&[1, 0, 0, 0, 9, 1, 2, 5], [7, 0, 3, 9], 0),
    (&[1, 0, 0, 0, 9, 1, 2, 3], [7, 1, 3, 9], 0),
    (&[1, 2, 0, 0, 9, 1, 3, 0], [7, 0, 0, 0], 0),
    // 32 values at a time, 8 repetitions one in another, and 20,000 instructions
    (&[0; 128], [7, 3, 0, 9], 0),
    (&[7; 32], [7, 3, 0, 9], 0),
    (&[7, 19999, 1, 0, 8, 1, 0, 0], [7, 3, 0, 9], 0),
    // three numbers are no instruction
    (&[2, 0, 0], [7, 3, 0, 9], 0),
];

/// Codes that are trapped.
static TRAPPED: [Case; 9] = [
    // 33 values at a time, 9 repetitions one in another, and 20,001 instructions
    (&[0; 132], [7, 3, 0, 9], 0),
    (&[7; 36], [7, 3, 0, 9], 0),
    (&[7, 20000, 1, 0, 8, 1, 0, 0], [7, 3, 0, 9], 0),
    // load v4, store v4, and a delay that counts in v4
    (&[1, 4, 0, 0], [7, 3, 0, 9], 0),
    (&[2, 4, 0, 0], [7, 3, 0, 9], 0),
    (&[9, 0, 4, 0], [7, 3, 0, 9], 0),
    // a jump past the end
    (&[5, 1, 0, 0], [7, 3, 0, 9], 0),
    // a quotient by 0 into v0, a stop, and a store that is not done
    (
        &[4, 3, 0, 0, 2, 0, 0, 0, 10, 0, 0, 0, 2, 1, 0, 0],
        [0, 3, 0, 9],
        1,
    ),
    // a delay on 1, three instructions a round, that has counted 6,666 times in 20,000
    (
        &[7, 65535, 3, 0, 0, 1, 0, 0, 9, 3, 2, 65535, 8, 3, 0, 0],
        [7, 3, 19998, 0],
        0,
    ),
];

/// Two numbers with an operation between them, what it makes of them, and the fault.
static OPERATIONS: [(u64, u16, u64, u64, u64); 15] = [
    (65535, 0, 2, 1, 0),
    (u64::MAX, 0, 2, 1, 0),
    (7, 1, 3, 4, 0),
    (3, 1, 7, 65532, 0),
    (3, 1, 70000, 3, 0),
    (256, 2, 257, 256, 0),
    (u64::MAX, 2, 70000, 61072, 0),
    (7, 3, 2, 3, 0),
    (7, 3, 0, 0, 1),
    (3, 4, 7, 1, 0),
    (7, 4, 7, 0, 0),
    (7, 5, 7, 1, 0),
    (7, 6, 0, 0, 0),
    (7, 7, 0, 1, 0),
    (0, 65535, 0, 0, 0),
];

/// Runs a case, and holds what it leaves to what it should.
fn check_case(rt: &impl Abort, case: &Case, outcome: Outcome) {
    let (code, vars, fault) = *case;
    let mut left = [7, 3, 0, 9];
    let mut noted = 0;
    assert_eq!(rt; run(code, 3, &mut left, &mut noted), outcome);
    assert_eq!(rt; left, vars);
    assert_eq!(rt; noted, fault);
}

#[test]
fn every_instruction(rt: HostRuntime) {
    for case in &FINISHED {
        check_case(&rt, case, Outcome::Finished);
    }
}

#[test]
fn every_trap(rt: HostRuntime) {
    for case in &TRAPPED {
        check_case(&rt, case, Outcome::Trapped);
    }
}

#[test]
fn every_operation(rt: HostRuntime) {
    for (x, op, y, value, fault) in &OPERATIONS {
        let mut vars = [*x, *y];
        let mut noted = 0;
        let code = [1, 0, 0, 0, 1, 1, 0, 0, 4, *op, 0, 0, 2, 0, 0, 0];
        assert_eq!(rt; run(&code, 0, &mut vars, &mut noted), Outcome::Finished);
        assert_eq!(rt; vars, [*value, *y]);
        assert_eq!(rt; noted, *fault);
    }
}

#[test]
fn the_first_fault_stays(rt: HostRuntime) {
    let mut fault = 7;
    assert_eq!(rt;
        run(&[4, 3, 0, 0], 0, &mut [], &mut fault),
        Outcome::Finished
    );
    assert_eq!(rt; fault, 7);
}
