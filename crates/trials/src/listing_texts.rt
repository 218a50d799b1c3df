//! Listings of small programs: every instruction that is made, and what each program needs.
use project::listing::listing;
use std::alloc::{AllocError, Global};
use std::test::Fail;

/// Is this the listing of a program without a header?
fn lists(heap: Global, program: &str, expected: &str) -> Result<bool, AllocError> {
    let project = format!(in heap; "program\n{program}")?;
    Ok(listing(heap, project.as_str()).is_ok_and(|text| text.as_str() == expected))
}

#[test]
fn the_examples_of_the_language_are_listed(rt: HostRuntime) -> Result<(), Fail> {
    let heap = rt.alloc();
    let cases = [
        ("", "cost 0, height 0, depth 0\n"),
        (
            "v2 := (v0 or v2) and not v1;",
            "0 load v0\n1 load v2\n2 or\n3 load v1\n4 not\n5 and\n6 store v2\ncost 7, height 2, depth 0\n",
        ),
        (
            "delay v2, v3, v0, 5;",
            "0 load v0\n1 delay v2 v3 5\ncost 2, height 1, depth 0\n",
        ),
        (
            "repeat 5 times v2 := v2 + v0; end;",
            "0 enter 5 5\n1 load v2\n2 load v0\n3 add\n4 store v2\n5 back 5\ncost 26, height 2, depth 1\n",
        ),
        (
            "v2 := 100 / v0;",
            "0 push 100\n1 load v0\n2 div\n3 store v2\ncost 4, height 2, depth 0\n",
        ),
        (
            "if v0 < 10 then v2 := 1; else v2 := 65535 + 2; v3 := 0 - 1; end;",
            "0 load v0\n1 push 10\n2 less\n3 jump-if-zero 3\n4 push 1\n5 store v2\n6 jump 8\n7 push 65535\n8 push 2\n9 add\n10 store v2\n11 push 0\n12 push 1\n13 sub\n14 store v3\ncost 12, height 2, depth 0\n",
        ),
    ];
    for (program, expected) in cases {
        assert!(rt; lists(heap, program, expected)?, "{}", program);
    }
    Ok(())
}

#[test]
fn operators_are_listed_after_their_operands(rt: HostRuntime) -> Result<(), Fail> {
    let heap = rt.alloc();
    let cases = [
        (
            "v1 := not v0 * 2 / 3 - 4 + 5 < 6 = 7 and 8 or 9;",
            "0 load v0\n1 not\n2 push 2\n3 mul\n4 push 3\n5 div\n6 push 4\n7 sub\n8 push 5\n9 add\n10 push 6\n11 less\n12 push 7\n13 equal\n14 push 8\n15 and\n16 push 9\n17 or\n18 store v1\ncost 19, height 2, depth 0\n",
        ),
        (
            "v1 := 1 - (2 - (3 - 4));",
            "0 push 1\n1 push 2\n2 push 3\n3 push 4\n4 sub\n5 sub\n6 sub\n7 store v1\ncost 8, height 4, depth 0\n",
        ),
        (
            "repeat 2 times repeat 3 times v0 := 1; end; end;",
            "0 enter 2 5\n1 enter 3 3\n2 push 1\n3 store v0\n4 back 3\n5 back 5\ncost 23, height 1, depth 2\n",
        ),
    ];
    for (program, expected) in cases {
        assert!(rt; lists(heap, program, expected)?, "{}", program);
    }
    Ok(())
}
