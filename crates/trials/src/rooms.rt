//! Rooms for code: every one that is too short is refused by its length, and is left as it was.
use base::Refusal;
use compiler::make;

/// `v2 := v0 + 7;`
const SIGNS: [u16; 12] = [1, 2, 3, 3, 1, 0, 2, 0, 0, 7, 3, 4];

/// Load v0, push 7, add, store v2: four instructions of four numbers.
const CODE: [u16; 16] = [1, 0, 0, 0, 0, 7, 0, 0, 4, 0, 0, 0, 2, 2, 0, 0];

#[test]
fn a_room_that_is_too_short_is_refused(rt: HostRuntime) {
    for length in 0..16 {
        let mut room = [99; 17];
        assert_eq!(rt;
            make(&SIGNS, &mut room[..length]),
            Err(Refusal::Room(length as u64))
        );
        assert!(rt; room == [99; 17]);
    }
}

#[test]
fn a_room_of_the_codes_length_suffices(rt: HostRuntime) {
    let mut room = [99; 16];
    assert_eq!(rt; make(&SIGNS, &mut room), Ok(4));
    assert!(rt; room == CODE);
    let mut longer = [99; 17];
    assert_eq!(rt; make(&SIGNS, &mut longer), Ok(4));
    assert_eq!(rt; longer[16], 99);
}

// What is no program is told before the room is looked at, and a limit too.
#[test]
fn a_short_room_is_told_last(rt: HostRuntime) {
    assert_eq!(rt; make(&SIGNS[..10], &mut []), Err(Refusal::Program(5)));
    assert_eq!(rt; make(&SIGNS[..11], &mut []), Err(Refusal::Token(5)));
    // repeat 20000 times end; costs a step a round, and one before
    let dear = [3, 9, 0, 20000, 3, 10, 3, 12, 3, 4];
    assert_eq!(rt; make(&dear, &mut []), Err(Refusal::Limit(0)));
}
