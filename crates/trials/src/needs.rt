//! What programs need before they run, against numbers that were worked out by hand.
use crate::texts::parsed;
use base::Refusal;
use semantics::{Needs, cost, needs};
use std::test::Fail;
use syntax::parse;

/// What a program's text needs.
fn needs_of_text(text: &str) -> Result<Needs, Refusal> {
    let tree = parsed(text)?;
    Ok(needs(&tree))
}

#[test]
fn an_expressions_text_costs_what_it_names(rt: HostRuntime) -> Result<(), Fail> {
    assert_eq!(rt;
        needs_of_text("v2 := (v0 or v2) and not v1;")?,
        Needs {
            cost: 7,
            height: 2,
            depth: 0,
            reach: 3,
        }
    );
    Ok(())
}

#[test]
fn statements_texts_cost_their_parts(rt: HostRuntime) -> Result<(), Fail> {
    assert_eq!(rt;
        needs_of_text("delay v2, v3, v0, 5;")?,
        Needs {
            cost: 2,
            height: 1,
            depth: 0,
            reach: 4,
        }
    );
    assert_eq!(rt;
        needs_of_text("repeat 5 times v2 := v2 + v0; end;")?,
        Needs {
            cost: 26,
            height: 2,
            depth: 1,
            reach: 3,
        }
    );
    Ok(())
}

#[test]
fn the_longer_branch_of_a_text_counts(rt: HostRuntime) -> Result<(), Fail> {
    let tree = parsed("if v0 < 10 then v2 := 1; else v2 := 65535 + 2; v3 := 0 - 1; end;")?;
    assert_eq!(rt; cost(&tree), 12);
    Ok(())
}

#[test]
fn a_quotient_costs_as_any_operation(rt: HostRuntime) -> Result<(), Fail> {
    let tree = parsed("v2 := 100 / v0;")?;
    assert_eq!(rt; cost(&tree), 4);
    Ok(())
}

/// What the program that tokens are needs.
fn needs_of(tokens: &[u16]) -> Result<Needs, Refusal> {
    let tree = parse(tokens)?;
    Ok(needs(&tree))
}

// v2 := (v0 or v2) and not v1;
#[test]
fn expressions_cost_what_they_name(rt: HostRuntime) -> Result<(), Fail> {
    let seven = needs_of(&[
        1, 2, 3, 3, 3, 1, 1, 0, 2, 7, 1, 2, 3, 2, 2, 6, 3, 0, 1, 1, 3, 4,
    ])?;
    assert_eq!(rt;
        seven,
        Needs {
            cost: 7,
            height: 2,
            depth: 0,
            reach: 3,
        }
    );
    Ok(())
}

// delay v2, v3, v0, 5; and repeat 5 times v2 := v2 + v0; end;
#[test]
fn statements_cost_their_parts(rt: HostRuntime) -> Result<(), Fail> {
    let delay = needs_of(&[3, 11, 1, 2, 3, 5, 1, 3, 3, 5, 1, 0, 3, 5, 0, 5, 3, 4])?;
    assert_eq!(rt;
        delay,
        Needs {
            cost: 2,
            height: 1,
            depth: 0,
            reach: 4,
        }
    );
    let five = needs_of(&[
        3, 9, 0, 5, 3, 10, 1, 2, 3, 3, 1, 2, 2, 0, 1, 0, 3, 4, 3, 12, 3, 4,
    ])?;
    assert_eq!(rt;
        five,
        Needs {
            cost: 26,
            height: 2,
            depth: 1,
            reach: 3,
        }
    );
    Ok(())
}

// if v0 < 10 then v2 := 1; else v2 := 65535 + 2; v3 := 0 - 1; end;
#[test]
fn the_longer_branch_counts(rt: HostRuntime) -> Result<(), Fail> {
    let tokens = [
        3, 6, 1, 0, 2, 4, 0, 10, 3, 7, 1, 2, 3, 3, 0, 1, 3, 4, 3, 8, 1, 2, 3, 3, 0, 65535, 2, 0, 0,
        2, 3, 4, 1, 3, 3, 3, 0, 0, 2, 1, 0, 1, 3, 4, 3, 12, 3, 4,
    ];
    let tree = parse(&tokens)?;
    assert_eq!(rt; cost(&tree), 12);
    Ok(())
}
