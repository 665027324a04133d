// The direct card at its limits.
use crate::answers::{check, refused};
use card::Card;
use card::CardCall::{Create, Delete, Length, Read, SetLength, Sync, Write};
use card::Cause::{Absent, Device, Present, Range};
use cards::DirectCard;

/// An image of 16 slots with 3 bytes for each file.
const SMALL: usize = 640;

#[test]
fn names_have_1_to_32_bytes(rt: HostRuntime) {
    let mut image = [0xffu8; SMALL];
    let mut card = DirectCard::new(&mut image, 9);
    let letters = [b'n'; 33];
    for length in [1, 32] {
        let name = &letters[0..length];
        assert_eq!(rt;
            (card.create(name), card.length(name)),
            (Ok(()), Ok(Some(0))),
            "{length} bytes"
        );
    }
    for length in [0, 33] {
        let name = &letters[0..length];
        assert_eq!(rt;
            (card.create(name), card.length(name), card.delete(name)),
            (
                refused(Create, Range, 9),
                refused(Length, Range, 9),
                refused(Delete, Range, 9)
            ),
            "{length} bytes"
        );
    }
}

#[test]
fn a_file_fills_its_slot_and_no_more_and_grows_by_zeros(rt: HostRuntime) {
    let mut image = [0xffu8; SMALL];
    let mut card = DirectCard::new(&mut image, 9);
    let mut full = [0u8; 3];
    let mut grown = [9u8; 3];
    check(
        &rt,
        &[
            (card.create(b"a"), Ok(())),
            (card.write(b"a", 0, b"xyz"), Ok(())),
            (card.write(b"a", 0, b"wxyz"), refused(Write, Device, 9)),
            (card.set_length(b"a", 4), refused(SetLength, Device, 9)),
            (
                card.set_length(b"a", 2_097_153),
                refused(SetLength, Range, 9),
            ),
            (card.read(b"a", 0, &mut full), Ok(())),
            (card.set_length(b"a", 1), Ok(())),
            (card.set_length(b"a", 3), Ok(())),
            (card.read(b"a", 0, &mut grown), Ok(())),
        ],
    );
    assert_eq!(rt; [full, grown], [*b"xyz", [b'x', 0, 0]]);
}

#[test]
fn a_place_is_at_the_end_or_before_it(rt: HostRuntime) {
    let mut image = [0xffu8; SMALL];
    let mut card = DirectCard::new(&mut image, 9);
    let mut byte = [7u8; 1];
    check(
        &rt,
        &[
            (card.create(b"a"), Ok(())),
            (card.write(b"a", 0, b"xy"), Ok(())),
            (card.write(b"a", 2, b""), Ok(())),
            (card.write(b"a", 3, b""), refused(Write, Range, 9)),
            (card.read(b"a", 2, &mut []), Ok(())),
            (card.read(b"a", 3, &mut []), refused(Read, Range, 9)),
            (card.read(b"a", 2, &mut byte), refused(Read, Range, 9)),
            (card.write(b"a", 2, b"z"), Ok(())),
        ],
    );
    assert_eq!(rt; (byte, card.length(b"a")), ([7u8; 1], Ok(Some(3))));
}

#[test]
fn a_17th_file_finds_no_slot(rt: HostRuntime) {
    let mut image = [0xffu8; SMALL];
    let mut card = DirectCard::new(&mut image, 9);
    // 16 names of one letter: the letter is the name, and no place in a list.
    for name in b'a'..=b'p' {
        assert_eq!(rt; card.create(&[name]), Ok(()));
    }
    check(
        &rt,
        &[
            (card.create(b"q"), refused(Create, Device, 9)),
            (card.create(b"a"), refused(Create, Present, 9)),
            (card.delete(b"h"), Ok(())),
            (card.create(b"q"), Ok(())),
        ],
    );
    assert_eq!(rt; card.length(b"h"), Ok(None));
}

#[test]
fn an_image_of_0_or_15_bytes_has_no_slot(rt: HostRuntime) {
    let mut image = [0xffu8; 15];
    for size in [0, 15] {
        let mut card = DirectCard::new(&mut image[0..size], 9);
        assert_eq!(rt;
            (card.create(b"a"), card.length(b"a"), card.sync(b"a")),
            (
                refused(Create, Device, 9),
                Ok(None),
                refused(Sync, Absent, 9)
            ),
            "{size} bytes"
        );
    }
}

#[test]
fn a_name_is_not_its_prefix(rt: HostRuntime) {
    let mut image = [0xffu8; SMALL];
    let mut card = DirectCard::new(&mut image, 9);
    // a call on the one file, and then the length of the other
    check(
        &rt,
        &[
            ((card.create(b"ab"), card.length(b"a")), (Ok(()), Ok(None))),
            (
                (card.create(b"a"), card.length(b"ab")),
                (Ok(()), Ok(Some(0))),
            ),
            (
                (card.write(b"a", 0, b"1"), card.length(b"ab")),
                (Ok(()), Ok(Some(0))),
            ),
            (
                (card.delete(b"ab"), card.length(b"a")),
                (Ok(()), Ok(Some(1))),
            ),
        ],
    );
}
