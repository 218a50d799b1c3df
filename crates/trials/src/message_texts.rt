//! What people are told of projects and scripts that are refused: the whole line, with the place it points at.
use crate::refusals::repeated;
use base::Refusal;
use project::load::Failure;
use project::message::message;
use project::play::play;
use std::alloc::{AllocError, Global};
use std::test::Fail;

/// What is said of a project and a script; nothing where they are played.
fn told_about(heap: Global, project: &str, script: &str) -> Result<String, AllocError> {
    match play(heap, project, script) {
        Ok(_) => Ok(String::new(heap)),
        Err(failure) => message(heap, "mill.plc", project, script, &failure),
    }
}

#[test]
fn projects_are_refused_at_a_line_and_a_column(rt: HostRuntime) -> Result<(), Fail> {
    let heap = rt.alloc();
    let cases = [
        (
            "",
            "1:1: refused 1 at 0: this does not belong here in a header",
        ),
        (
            "kept 3\nfoo\nprogram\n",
            "2:1: refused 1 at 7: this does not belong here in a header",
        ),
        (
            "outside v0\nprogram\nv1 := 1;\nv2 := 70000;\n",
            "4:7: refused 1 at 15: no token begins here",
        ),
        (
            "program\nv1 := ;\n",
            "2:7: refused 2 at 2: expected an expression, found ';'",
        ),
        (
            "program\nv1 := 1\n\n",
            "4:1: refused 2 at 3: expected an operator or the end of the expression, found the end of the text",
        ),
        (
            "program\nv1 1;",
            "2:4: refused 2 at 1: expected ':=', found '1'",
        ),
        (
            "program\nrepeat v1 times end;",
            "2:8: refused 2 at 1: expected a number, found 'v1'",
        ),
        (
            "program\nif v0 then end;",
            "2:12: refused 2 at 3: expected a statement, found 'end'",
        ),
        (
            "program\ndelay v2 v3, v0, 5;",
            "2:10: refused 2 at 2: expected a comma, found 'v3'",
        ),
        (
            "program\nv1 := 1 +\n  * 2;",
            "3:3: refused 2 at 4: expected an expression, found '*'",
        ),
        (
            "kept 1\n  program\nrepeat 6667 times v1 := 1; end;",
            "2:3: refused 3 at 0: the program costs more than 20000",
        ),
        (
            "first v1 2\nkept 65\nprogram\nv1 := 1;",
            "2:1: refused 5 at 0: more than 64 variables are kept",
        ),
    ];
    for (project, line) in cases {
        let expected = format!(in heap; "mill.plc:{line}")?;
        assert_eq!(rt; told_about(heap, project, "")?.as_str(), expected.as_str());
    }
    Ok(())
}

#[test]
fn a_high_and_a_deep_program_are_refused_at_the_line_program(rt: HostRuntime) -> Result<(), Fail> {
    let heap = rt.alloc();
    let high = repeated(heap, "kept 1\nprogram\nv1 := ", "1 + (", 32, "1")?;
    let high = repeated(heap, high.as_str(), ")", 32, ";")?;
    assert_eq!(rt;
        told_about(heap, high.as_str(), "")?.as_str(),
        "mill.plc:2:1: refused 3 at 1: the program needs more than 32 values at a time"
    );
    let deep = repeated(heap, "program\n", "repeat 1 times ", 9, "")?;
    let deep = repeated(heap, deep.as_str(), "end;", 9, "")?;
    assert_eq!(rt;
        told_about(heap, deep.as_str(), "")?.as_str(),
        "mill.plc:1:1: refused 3 at 2: the program has more than 8 repetitions one in another"
    );
    let long = repeated(heap, "program\n", "v1 := 1;\n", 1025, "")?;
    assert_eq!(rt;
        told_about(heap, long.as_str(), "")?.as_str(),
        "mill.plc:1026:1: refused 1 at 9216: a program has at most 4096 tokens"
    );
    Ok(())
}

#[test]
fn scripts_are_refused_at_a_line_and_a_column(rt: HostRuntime) -> Result<(), Fail> {
    let heap = rt.alloc();
    let cases = [
        ("strat\n", "1:1: refused 1 at 0"),
        ("start\nscan x\n", "2:6: refused 1 at 11"),
        ("start\nforce v2\n", "2:9: refused 1 at 14"),
        (
            "start\n\ncut 1 at 2 junk 3: v0 65536",
            "3:23: refused 1 at 29",
        ),
    ];
    for (script, line) in cases {
        let expected = format!(in heap; "script:{line}: no event goes on so")?;
        assert_eq!(rt;
            told_about(heap, "program\n", script)?.as_str(),
            expected.as_str()
        );
    }
    Ok(())
}

/// A caller may ask about a text that is not even cut: the message points where the token would begin, or past
/// the piece that is none at the end of the text.
#[test]
fn a_text_that_is_not_cut_is_no_program(rt: HostRuntime) -> Result<(), Fail> {
    let cases = [
        (0, "mill.plc:2:1: refused 2 at 0: this is no program"),
        (1, "mill.plc:2:2: refused 2 at 1: this is no program"),
    ];
    for (index, expected) in cases {
        let failure = Failure::Program(Refusal::Program(index));
        let line = message(rt.alloc(), "mill.plc", "program\n?", "", &failure)?;
        assert_eq!(rt; line.as_str(), expected);
    }
    Ok(())
}
