//! Projects that are refused: each with the number and the place of its refusal.
use project::load::{Failure, load};
use project::play::play;
use std::alloc::{AllocError, Global};
use std::test::Fail;

/// The number and the place of a refusal; 10 at 0 is want of memory.
fn told(failure: Failure) -> (u64, u64) {
    match failure {
        Failure::Memory => (10, 0),
        Failure::Header(refusal) => (refusal.number(), refusal.place()),
        Failure::Program(refusal) => (refusal.number(), refusal.place()),
        Failure::Script(refusal) => (refusal.number(), refusal.place()),
    }
}

/// What is told of a project; 0 at 0 where it is taken.
fn told_of(heap: Global, project: &str) -> (u64, u64) {
    match load(heap, project) {
        Ok(_) => (0, 0),
        Err(failure) => told(failure),
    }
}

/// What is told of a program without a header.
fn told_of_program(heap: Global, program: &str) -> Result<(u64, u64), AllocError> {
    let mut project = String::from_str(heap, "program\n")?;
    project.push_str(program)?;
    Ok(told_of(heap, project.as_str()))
}

/// A piece of text, so many times over, between two others.
pub(crate) fn repeated(
    heap: Global,
    before: &str,
    piece: &str,
    times: u32,
    after: &str,
) -> Result<String, AllocError> {
    let mut text = String::from_str(heap, before)?;
    for _ in 0..times {
        text.push_str(piece)?;
    }
    text.push_str(after)?;
    Ok(text)
}

#[test]
fn programs_are_refused_at_the_first_token_that_does_not_fit(rt: HostRuntime) -> Result<(), Fail> {
    let heap = rt.alloc();
    let cases = [
        ("", 0, 0),
        ("v1 := 1;", 0, 0),
        ("if v0 then else end;", 0, 0),
        ("v1 := ;", 2, 2),
        ("v1 := 1", 2, 3),
        ("v1 1;", 2, 1),
        ("1 := 2;", 2, 0),
        ("v1 := 1 + ;", 2, 4),
        ("v1 := (1;", 2, 4),
        ("v1 := 1);", 2, 3),
        ("v1 := not;", 2, 3),
        ("v1 := 1 not 2;", 2, 3),
        ("v1 := v2 = = v3;", 2, 4),
        ("if v0 then v1 := 1; end;", 2, 7),
        ("repeat v0 times end;", 2, 1),
        ("repeat 3 times v1 := 1; end", 2, 8),
        ("delay v2, v3, v0;", 2, 6),
        ("delay v2, v3, v0, v1;", 2, 7),
        ("end;", 2, 0),
    ];
    for (program, number, place) in cases {
        assert_eq!(rt;
            told_of_program(heap, program)?,
            (number, place),
            "{}",
            program
        );
    }
    Ok(())
}

#[test]
fn texts_are_refused_at_the_first_piece_that_is_no_token(rt: HostRuntime) -> Result<(), Fail> {
    let heap = rt.alloc();
    let cases = [
        ("v1 := 1 ? 2;", 1, 8),
        ("v64 := 1;", 1, 0),
        ("v1 := 70000;", 1, 6),
        ("v1 := 65535;", 0, 0),
        ("v01 := 1;", 1, 0),
        ("IF v0 then else end;", 1, 0),
        ("v1 := 1v;", 1, 6),
        (": v1", 1, 0),
        ("v1:=007;", 0, 0),
    ];
    for (program, number, place) in cases {
        assert_eq!(rt;
            told_of_program(heap, program)?,
            (number, place),
            "{}",
            program
        );
    }
    Ok(())
}

#[test]
fn headers_are_refused_at_the_first_word_that_does_not_fit(rt: HostRuntime) {
    let heap = rt.alloc();
    let cases = [
        ("", 1, 0),
        ("kept x\nprogram\n", 1, 5),
        ("kept 3\nkept 4\nprogram\n", 1, 7),
        ("outside v0 v64\nprogram\n", 1, 11),
        ("first v2 5\nfirst v2 6\nprogram\n", 1, 17),
        ("foo\nprogram\n", 1, 0),
        ("kept 64\nprogram\n", 0, 0),
        ("kept 65\nprogram\nv1 := 1;", 5, 0),
        ("kept 65\nprogram\nv1 := ;", 2, 2),
    ];
    for (project, number, place) in cases {
        assert_eq!(rt; told_of(heap, project), (number, place), "{}", project);
    }
}

#[test]
fn limits_are_refused_by_the_first_that_is_passed(rt: HostRuntime) -> Result<(), Fail> {
    let heap = rt.alloc();
    // a round costs 3, so 6,666 of them and the one before cost 19,999, and 6,667 cost 20,002
    assert_eq!(rt;
        told_of_program(heap, "repeat 6666 times v1 := 1; end;")?,
        (0, 0)
    );
    assert_eq!(rt;
        told_of_program(heap, "repeat 6667 times v1 := 1; end;")?,
        (3, 0)
    );
    // each bracket holds one value more, and the innermost number is the last
    let low = repeated(heap, "v1 := ", "1 + (", 31, "1")?;
    let low = repeated(heap, low.as_str(), ")", 31, ";")?;
    assert_eq!(rt; told_of_program(heap, low.as_str())?, (0, 0));
    let high = repeated(heap, "v1 := ", "1 + (", 32, "1")?;
    let high = repeated(heap, high.as_str(), ")", 32, ";")?;
    assert_eq!(rt; told_of_program(heap, high.as_str())?, (3, 1));
    let deep = repeated(heap, "", "repeat 1 times ", 9, "")?;
    let deep = repeated(heap, deep.as_str(), "end;", 9, "")?;
    assert_eq!(rt; told_of_program(heap, deep.as_str())?, (3, 2));
    Ok(())
}

#[test]
fn no_more_than_4096_tokens_are_taken(rt: HostRuntime) -> Result<(), Fail> {
    let heap = rt.alloc();
    // four tokens and eight characters a line
    let most = repeated(heap, "", "v1 := 1;", 1024, "")?;
    assert_eq!(rt; told_of_program(heap, most.as_str())?, (0, 0));
    let more = repeated(heap, "", "v1 := 1;", 1250, "")?;
    assert_eq!(rt; told_of_program(heap, more.as_str())?, (1, 8192));
    Ok(())
}

#[test]
fn scripts_are_refused_before_anything_is_played(rt: HostRuntime) -> Result<(), Fail> {
    let heap = rt.alloc();
    let cases = [
        ("strat", 0),
        ("start\nscan x", 11),
        ("start\nscan 1: v64 1", 14),
        ("start\nforce v2", 14),
        ("start now", 6),
    ];
    for (script, place) in cases {
        match play(heap, "program\n", script) {
            Ok(_) => return Err(Fail::new("taken")),
            Err(failure) => assert_eq!(rt; told(failure), (1, place), "{}", script),
        }
    }
    Ok(())
}
