//! Texts cut into tokens: the pairs that are written, and the places that are told.
use base::Refusal;
use lexer::{token_place, tokenize};
use std::str::from_utf8;
use std::test::Fail;

/// What a text is answered with, where the room is as it should be.
fn answer(text: &str) -> Result<u64, Refusal> {
    let mut room = [9u16; 8192];
    tokenize(text, &mut room)
}

#[test]
fn cuts_a_program(rt: HostRuntime) {
    let mut room = [9u16; 8192];
    assert_eq!(rt; tokenize("v2:=not\n 007;", &mut room), Ok(5));
    assert_eq!(rt; &room[..12], &[1, 2, 3, 3, 3, 0, 0, 7, 3, 4, 9, 9][..]);
    assert_eq!(rt;
        tokenize("if v0 <(65535)then delay v1,v63,5 end", &mut room),
        Ok(14)
    );
    assert_eq!(rt; &room[..12], &[3, 6, 1, 0, 2, 4, 3, 1, 0, 65535, 3, 2][..]);
    assert_eq!(rt;
        &room[12..28],
        &[3, 7, 3, 11, 1, 1, 3, 5, 1, 63, 3, 5, 0, 5, 3, 12][..]
    );
    assert_eq!(rt; answer(""), Ok(0));
}

#[test]
fn refuses_at_the_first_bad_piece(rt: HostRuntime) {
    let cases = [
        (" 70000", 1),
        ("65536", 0),
        ("v63 v64", 4),
        ("v01", 0),
        ("+1v", 1),
        ("1 : 2", 2),
        ("IF", 0),
        ("v1 ? 2", 3),
    ];
    for (text, place) in cases {
        assert_eq!(rt; answer(text), Err(Refusal::Token(place)), "{}", text);
    }
}

#[test]
fn refuses_the_room_last(rt: HostRuntime) {
    let mut room = [9u16; 4];
    assert_eq!(rt; tokenize("1 + 2", &mut room), Err(Refusal::Length(1)));
    assert_eq!(rt; tokenize("1 + ?", &mut room), Err(Refusal::Token(4)));
    assert_eq!(rt; room, [9, 9, 9, 9]);
}

#[test]
fn finds_where_a_token_begins(rt: HostRuntime) {
    for (index, place) in [(0, 1), (2, 8), (4, 11)] {
        assert_eq!(rt; token_place(" v1 :=\n 12;", index), place);
    }
}

#[test]
fn takes_4096_tokens(rt: HostRuntime) -> Result<(), Fail> {
    let mut text = [b';'; 4098];
    text[0] = b' ';
    assert_eq!(rt; answer(from_utf8(&text)?), Err(Refusal::Token(4097)));
    text[4097] = b'\t';
    assert_eq!(rt; answer(from_utf8(&text)?), Ok(4096));
    Ok(())
}
