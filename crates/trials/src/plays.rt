//! Projects and scripts that are played: each with the text that comes of it.
use project::play::play;
use std::alloc::{AllocError, Global};
use std::test::Fail;

/// Is this what comes of a project and a script?
pub(crate) fn comes_of(heap: Global, project: &str, script: &str, expected: &str) -> bool {
    play(heap, project, script).is_ok_and(|text| text.as_str() == expected)
}

/// Does v3 become this value of an expression, where v0 is 2, v1 is 5 and v2 is 3?
pub(crate) fn becomes(heap: Global, expression: &str, value: &str) -> Result<bool, AllocError> {
    let project = format!(in heap;
        "first v0 2\nfirst v1 5\nfirst v2 3\nprogram\nv3 := {expression};"
    )?;
    let expected = format!(in heap; "start:\nscan: v3 {value}\n")?;
    Ok(comes_of(heap, project.as_str(), "start\nscan 1", expected.as_str()))
}

#[test]
fn a_motor_holds_itself(rt: HostRuntime) {
    let project = "outside v0 v1\nprogram\nv2 := (v0 or v2) and not v1;";
    let script = "start\nscan 1: v0 1\nscan 1: v0 0\nscan 1: v1 1\nscan 1: v1 0\n";
    let expected = "start:\nscan: v0 1 v2 1\nscan: v0 0\nscan: v1 1 v2 0\nscan: v1 0\n";
    assert!(rt; comes_of(rt.alloc(), project, script, expected));
}

#[test]
fn a_delay_counts_to_its_length(rt: HostRuntime) {
    let project = "outside v0\nprogram\ndelay v2, v3, v0, 5;";
    let script = "start\nscan 2: v0 1\nscan 2\nscan 2\nscan 2: v0 0\n";
    let expected = "start:\nscan: v0 1 v3 2\nscan: v3 4\nscan: v2 1 v3 5\nscan: v0 0 v2 0 v3 0\n";
    assert!(rt; comes_of(rt.alloc(), project, script, expected));
}

#[test]
fn a_repetition_goes_round(rt: HostRuntime) {
    let project = "outside v0\nprogram\nrepeat 5 times v2 := v2 + v0; end;";
    let script = "start\nscan 1: v0 3\nscan 1\nscan 1: v0 13101\n";
    let expected = "start:\nscan: v0 3 v2 15\nscan: v2 30\nscan: v0 13101 v2 65535\n";
    assert!(rt; comes_of(rt.alloc(), project, script, expected));
}

#[test]
fn a_quotient_by_0_lights_the_lamp(rt: HostRuntime) {
    let project = "outside v0\nprogram\nv2 := 100 / v0;";
    let script = "start\nscan 1: v0 7\nscan 1: v0 0\nscan 1: v0 100\n";
    let expected = "start:\nscan: v0 7 v2 14\nscan: v0 0 v2 0 lamp lit\nscan: v0 100 v2 1\n";
    assert!(rt; comes_of(rt.alloc(), project, script, expected));
}

#[test]
fn a_choice_goes_one_way(rt: HostRuntime) {
    let project =
        "outside v0\nprogram\nif v0 < 10 then v2 := 1; else v2 := 65535 + 2; v3 := 0 - 1; end;";
    let script = "start\nscan 1: v0 9\nscan 1: v0 10\n";
    let expected = "start:\nscan: v0 9 v2 1\nscan: v0 10 v3 65535\n";
    assert!(rt; comes_of(rt.alloc(), project, script, expected));
}

/// v0 is 2, v1 is 5, v2 is 3; differences left and right of other operators, and what v3 becomes.
#[test]
fn differences_keep_their_sign(rt: HostRuntime) -> Result<(), Fail> {
    let heap = rt.alloc();
    let cases = [
        ("(v0 - v1) * v2", "65527"),
        ("v2 * (v0 - v1)", "65527"),
        ("v0 - v1 * v2", "65523"),
        ("v0 * v1 - v2", "7"),
        ("(v0 - v1) / v2", "21844"),
        ("v2 / v0 * v1", "5"),
        ("v0 - v1 - v2", "65530"),
        ("v1 - (v0 - v2)", "6"),
        ("v0 - v1 + v2 + 1", "1"),
        ("v1 - v0 = v2", "1"),
        ("v0 < v1 - v0", "1"),
        ("not v0 < v1", "1"),
        ("not (v0 < v1) + 1", "1"),
        ("1 or v0 and 0", "1"),
    ];
    for (expression, value) in cases {
        assert!(rt; becomes(heap, expression, value)?, "{}", expression);
    }
    Ok(())
}

/// The first character of an operation that is refused when off, and of those that are too large.
#[test]
fn requests_are_refused_by_their_number(rt: HostRuntime) {
    let script =
        "scan 1\ncut 1 at 0 junk 0\nforce v1 1\nfree v1\nstart\nscan 65536\nforce v64 1\nforce v1 65536\nfree v64\n";
    let expected =
        "refused 6 at 0\nrefused 6 at 0\nrefused 6 at 0\nrefused 6 at 0\nstart:\nrefused 7 at 0\nrefused 9 at 0\nrefused 9 at 1\nrefused 9 at 0\n";
    assert!(rt; comes_of(rt.alloc(), "program\n", script, expected));
}
