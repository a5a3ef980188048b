// Single characters: the edges of the rows of well-formed UTF-8, and ill-formed subparts.
use text::{Character, character};

#[test]
fn first_and_last_of_each_length(rt: HostRuntime) {
    assert_eq!(rt; character(b"\x00"), Character::Scalar(0, 1));
    assert_eq!(rt; character(b"\x7f"), Character::Scalar(0x7f, 1));
    assert_eq!(rt; character(b"\xc2\x80"), Character::Scalar(0x80, 2));
    assert_eq!(rt; character(b"\xdf\xbf"), Character::Scalar(0x7ff, 2));
    assert_eq!(rt; character(b"\xe0\xa0\x80"), Character::Scalar(0x800, 3));
    assert_eq!(rt; character(b"\xef\xbf\xbf"), Character::Scalar(0xffff, 3));
    assert_eq!(rt;
        character(b"\xf0\x90\x80\x80"),
        Character::Scalar(0x10000, 4)
    );
    assert_eq!(rt;
        character(b"\xf4\x8f\xbf\xbf"),
        Character::Scalar(0x10ffff, 4)
    );
}

#[test]
fn around_the_surrogates(rt: HostRuntime) {
    assert_eq!(rt; character(b"\xed\x9f\xbf"), Character::Scalar(0xd7ff, 3));
    assert_eq!(rt; character(b"\xee\x80\x80"), Character::Scalar(0xe000, 3));
    assert_eq!(rt; character(b"\xed\xa0\x80"), Character::IllFormed(1));
    assert_eq!(rt; character(b"\xa0\x80"), Character::IllFormed(1));
}

#[test]
fn maximal_subparts(rt: HostRuntime) {
    assert_eq!(rt; character(b"\xe0\x80"), Character::IllFormed(1));
    assert_eq!(rt; character(b"\x80"), Character::IllFormed(1));
    assert_eq!(rt; character(b"\xf4\x90"), Character::IllFormed(1));
    assert_eq!(rt; character(b"\x90"), Character::IllFormed(1));
    assert_eq!(rt; character(b"\xf0\x90\x80A"), Character::IllFormed(3));
    assert_eq!(rt; character(b"\xe2\x82A"), Character::IllFormed(2));
    assert_eq!(rt; character(b"\xc0\xaf"), Character::IllFormed(1));
    assert_eq!(rt; character(b"\xff"), Character::IllFormed(1));
}

#[test]
fn unfinished(rt: HostRuntime) {
    assert_eq!(rt; character(b""), Character::Empty);
    assert_eq!(rt; character(b"\xc2"), Character::Partial);
    assert_eq!(rt; character(b"\xe2\x82"), Character::Partial);
    assert_eq!(rt; character(b"\xf0\x90\x80"), Character::Partial);
    assert_eq!(rt;
        character(b"\xe2\x82\xac\xe2"),
        Character::Scalar(0x20ac, 3)
    );
}
