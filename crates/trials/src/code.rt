//! Programs made into code: the numbers of each instruction, and what is refused.
use crate::texts::compiled;
use base::Refusal;
use compiler::make;

#[test]
fn a_repetitions_text_goes_back(rt: HostRuntime) {
    let text = "repeat 5 times v2 := v2 + v0; end;";
    let mut room = [99; 25];
    assert_eq!(rt; compiled(text, &mut room[0..23]), Err(Refusal::Room(23)));
    assert!(rt; room == [99; 25]);
    assert_eq!(rt; compiled(text, &mut room), Ok(6));
    assert_eq!(rt; &room[..12], &[7, 5, 5, 0, 1, 2, 0, 0, 1, 0, 0, 0][..]);
    assert_eq!(rt; &room[12..], &[4, 0, 0, 0, 2, 2, 0, 0, 8, 5, 0, 0, 99][..]);
}

#[test]
fn a_choices_text_jumps(rt: HostRuntime) {
    let mut room = [0; 20];
    assert_eq!(rt; compiled("if v0 then v1 := 1; else end;", &mut room), Ok(5));
    assert!(rt; room == [1, 0, 0, 0, 6, 3, 0, 0, 0, 1, 0, 0, 2, 1, 0, 0, 5, 0, 0, 0]);
}

// repeat 5 times v2 := v2 + v0; end;
#[test]
fn a_repetition_goes_back(rt: HostRuntime) {
    let signs = [
        3, 9, 0, 5, 3, 10, 1, 2, 3, 3, 1, 2, 2, 0, 1, 0, 3, 4, 3, 12, 3, 4,
    ];
    let mut room = [99; 25];
    assert_eq!(rt; make(&signs, &mut room[0..23]), Err(Refusal::Room(23)));
    assert!(rt; room[0] == 99);
    assert_eq!(rt; make(&signs, &mut room), Ok(6));
    let code = [
        7, 5, 5, 0, 1, 2, 0, 0, 1, 0, 0, 0, 4, 0, 0, 0, 2, 2, 0, 0, 8, 5, 0, 0, 99,
    ];
    assert!(rt; room == code);
}

// if v0 then v1 := 1; else end;
#[test]
fn a_choice_jumps(rt: HostRuntime) {
    let mut room = [0; 20];
    let made = make(
        &[3, 6, 1, 0, 3, 7, 1, 1, 3, 3, 0, 1, 3, 4, 3, 8, 3, 12, 3, 4],
        &mut room,
    );
    assert_eq!(rt; made, Ok(5));
    assert!(rt; room == [1, 0, 0, 0, 6, 3, 0, 0, 0, 1, 0, 0, 2, 1, 0, 0, 5, 0, 0, 0]);
}

/// A name that is none, and `v2 := ;`.
#[test]
fn what_is_no_program_is_refused(rt: HostRuntime) {
    let mut room = [0; 4];
    assert_eq!(rt; make(&[1, 2, 1, 64], &mut room), Err(Refusal::Token(1)));
    assert_eq!(rt;
        make(&[1, 2, 3, 3, 3, 4], &mut room),
        Err(Refusal::Program(2))
    );
}
