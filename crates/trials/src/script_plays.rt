//! Scripts played line by line: cuts, forced points, inputs, the lamp and starts.
use crate::plays::{becomes, comes_of};
use std::test::Fail;

#[test]
fn an_early_cut_keeps_the_old_values_and_a_late_one_the_new(rt: HostRuntime) {
    let project = "kept 1\nprogram\nv0 := v0 + 1;";
    let script =
        "start\nscan 1\nscan 1\ncut 1 at 0 junk 9\nstart\nscan 1\ncut 1 at 99 junk 9\nstart\n";
    let expected = "start: v0 0\nscan: v0 1\nscan: v0 2\nstart: v0 2\nscan: v0 3\nstart: v0 4\n";
    assert!(rt; comes_of(rt.alloc(), project, script, expected));
}

#[test]
fn a_start_gives_first_values_to_what_is_not_kept(rt: HostRuntime) {
    let project = "kept 1\nfirst v0 5\nfirst v1 7\nprogram\nv0 := v0 + 1; v1 := v1 + 1;";
    let script = "start\nscan 1\nstart\nscan 1\n";
    let expected = "start: v0 5\nscan: v0 6 v1 8\nstart: v0 6\nscan: v0 7 v1 8\n";
    assert!(rt; comes_of(rt.alloc(), project, script, expected));
}

#[test]
fn a_forced_point_shows_its_number_until_it_is_freed(rt: HostRuntime) {
    let script = "start\nforce v1 7\nscan 1\nscan 1\nfree v1\nscan 1\n";
    let expected = "start:\nscan: v1 7 v2 5\nscan:\nscan: v1 5\n";
    assert!(rt; comes_of(rt.alloc(), "program\nv1 := 5; v2 := v1;", script, expected));
}

#[test]
fn refused_lines_still_say_what_comes_in(rt: HostRuntime) {
    let project = "outside v0\nprogram\nv1 := v0;";
    let script =
        "scan 1: v0 4\nstart\nscan 70000: v0 6\nscan 1\ncut 65536 at 0 junk 0: v0 8\nscan 1\n";
    let expected =
        "refused 6 at 0\nstart:\nrefused 7 at 0\nscan: v0 6 v1 6\nrefused 7 at 0\nscan: v0 8 v1 8\n";
    assert!(rt; comes_of(rt.alloc(), project, script, expected));
}

#[test]
fn the_lamp_stays_lit_until_the_next_start(rt: HostRuntime) {
    let script = "start\nscan 1\nscan 1\nstart\nscan 1\n";
    let expected = "start:\nscan: lamp lit\nscan:\nstart:\nscan: lamp lit\n";
    assert!(rt; comes_of(rt.alloc(), "program\nv1 := 1 / 0;", script, expected));
}

#[test]
fn blanks_and_colons_are_free(rt: HostRuntime) {
    let project = "\n outside\tv0 v3\r\n\nprogram\nv1 := v0 + v3;";
    let script = "\n\tstart\r\n\n scan 007 :v0 1 v3 2 v0 4\nscan 1:\n";
    let expected = "start:\nscan: v0 4 v1 6 v3 2\nscan:\n";
    assert!(rt; comes_of(rt.alloc(), project, script, expected));
}

/// v0 is 2, v1 is 5, v2 is 3, so v0 - v1 goes round to 65533; beside products, quotients and comparisons on either side.
#[test]
fn differences_go_round_on_both_sides(rt: HostRuntime) -> Result<(), Fail> {
    let heap = rt.alloc();
    let cases = [
        ("(v0 - v1) * (v0 - v1)", "9"),
        ("v2 * v0 - v1 * v2", "65527"),
        ("(v0 - v1) * v2 + v2 * v2 + 1", "1"),
        ("v1 * v1 / (v0 - v1) + 1", "1"),
        ("(v0 - v1) / (v1 - v0)", "21844"),
        ("v2 < v0 - v1", "1"),
        ("(v0 - v1 < v2) + 2", "2"),
        ("v0 - v1 = 65533", "1"),
        ("65533 = v0 - v1", "1"),
        ("v0 - v1 and v2", "1"),
    ];
    for (expression, value) in cases {
        assert!(rt; becomes(heap, expression, value)?, "{}", expression);
    }
    Ok(())
}
