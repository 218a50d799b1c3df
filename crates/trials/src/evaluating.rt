//! Trees evaluated: what becomes of the variables and of the fault.
use crate::texts::parsed;
use base::Refusal;
use semantics::{cost, evaluate};
use std::test::Fail;
use syntax::parse;

/// From 1, 2 and 3: -1 is 65535, and three times that 65533.
#[test]
fn words_of_a_text_go_round(rt: HostRuntime) -> Result<(), Fail> {
    let tree = parsed("v3 := (v0 - v1) * v2;")?;
    let mut vars = [1, 2, 3, 0];
    let mut fault = 0;
    evaluate(&tree, 0, &mut vars, &mut fault)?;
    assert_eq!(rt; vars[3], 65533);
    assert_eq!(rt; fault, 0);
    assert_eq!(rt;
        evaluate(&tree, 0, &mut vars[0..3], &mut fault),
        Err(Refusal::Length(2))
    );
    Ok(())
}

#[test]
fn a_quotient_by_nothing_in_a_text_is_a_fault(rt: HostRuntime) -> Result<(), Fail> {
    let tree = parsed("v2 := 100 / v0;")?;
    let mut vars = [0, 0, 7];
    let mut fault = 0;
    evaluate(&tree, 0, &mut vars, &mut fault)?;
    assert_eq!(rt; vars[2], 0);
    assert_eq!(rt; fault, 1);
    Ok(())
}

// v3 := (v0 - v1) * v2; from 1, 2 and 3: -1 is 65535, and three times that 65533
#[test]
fn words_go_round(rt: HostRuntime) -> Result<(), Fail> {
    let tree = parse(&[1, 3, 3, 3, 3, 1, 1, 0, 2, 1, 1, 1, 3, 2, 2, 2, 1, 2, 3, 4])?;
    let mut vars = [1, 2, 3, 0];
    let mut fault = 0;
    evaluate(&tree, 0, &mut vars, &mut fault)?;
    assert_eq!(rt; vars[3], 65533);
    assert_eq!(rt; fault, 0);
    assert_eq!(rt;
        evaluate(&tree, 0, &mut vars[0..3], &mut fault),
        Err(Refusal::Length(2))
    );
    Ok(())
}

// v2 := 100 / v0; where v0 is 0
#[test]
fn a_quotient_by_nothing_is_a_fault(rt: HostRuntime) -> Result<(), Fail> {
    let tree = parse(&[1, 2, 3, 3, 0, 100, 2, 3, 1, 0, 3, 4])?;
    assert_eq!(rt; cost(&tree), 4);
    let mut vars = [0, 0, 7];
    let mut fault = 0;
    evaluate(&tree, 0, &mut vars, &mut fault)?;
    assert_eq!(rt; vars[2], 0);
    assert_eq!(rt; fault, 1);
    Ok(())
}
