//! The machine beside the plain evaluator of trees: both make the same of a program, from whatever values.
use compiler::make;
use lexer::tokenize;
use semantics::evaluate;
use syntax::parse;
use vm::{Outcome, run};

/// What a program that came to its end made of v0, v1 and zeros: the variables, and the fault.
type Made = ([u64; 64], u64);

/// v0, v1 and zeros.
fn variables(v0: u64, v1: u64) -> [u64; 64] {
    let mut vars = [0; 64];
    vars[0] = v0;
    vars[1] = v1;
    vars
}

/// What the machine makes of a program's tokens, 7 after the last run.
fn by_machine(signs: &[u16], v0: u64, v1: u64) -> Option<Made> {
    let mut room = [0; 16388];
    let mut vars = variables(v0, v1);
    let mut fault = 0;
    let count = make(signs, &mut room).ok()?;
    match run(&room[..4 * count as usize], 7, &mut vars, &mut fault) {
        Outcome::Finished => Some((vars, fault)),
        Outcome::Trapped => None,
    }
}

/// What the evaluator makes of their tree.
fn by_evaluator(signs: &[u16], v0: u64, v1: u64) -> Option<Made> {
    let mut vars = variables(v0, v1);
    let mut fault = 0;
    let tree = parse(signs).ok()?;
    evaluate(&tree, 7, &mut vars, &mut fault).ok()?;
    Some((vars, fault))
}

/// Do both come to an end with the same values and the same fault?
fn agree(text: &str, v0: u64, v1: u64) -> bool {
    let mut tokens = [0; 8192];
    let Ok(count) = tokenize(text, &mut tokens) else {
        return false;
    };
    let signs = &tokens[..2 * count as usize];
    let made = by_machine(signs, v0, v1);
    made.is_some() && made == by_evaluator(signs, v0, v1)
}

#[test]
fn the_machine_does_what_the_evaluator_does(rt: HostRuntime) {
    let programs = [
        "v2 := v0 + v1;",
        "v2 := v0 - v1;",
        "v2 := v0 * v1;",
        "v2 := v0 / v1;",
        "v2 := v0 < v1; v3 := v0 = v1;",
        "v2 := v0 and v1; v3 := v0 or v1; v4 := not v0;",
        "v2 := (v0 - v1) * v0 - v1 / v0;",
        "if v0 then v2 := 1; else v3 := 2; end; v4 := v2 - v3;",
        "repeat 3 times v2 := v2 + v0; end; repeat 0 times v3 := 1; end;",
        "repeat 3 times repeat 4 times v2 := v2 + 1; end; if v2 < 6 then v3 := v2; else end; end;",
        "delay v2, v3, v0, 5; delay v4, v5, v1, 20;",
        "delay v2, v2, v0, 20; delay v3, v4, v1, 0;",
        "v2 := v0 / (v1 - v1); v3 := 1 / 0;",
    ];
    let values = [
        (0, 0),
        (1, 0),
        (0, 1),
        (5, 7),
        (65535, 2),
        (65536, 65537),
        (1 << 63, 3),
    ];
    for text in programs {
        for (v0, v1) in values {
            assert!(rt; agree(text, v0, v1), "{}", text);
        }
    }
}
