// Journals of every kind beside the databases: damaged, spent and hot.
use crate::contents::{Page, Version, make_databases, names};
use crate::scenes::{Beside, check_found, check_refused};
use card::Card;
use direct_card::DirectCard;
use journal::{JOURNAL_LIMIT, MAGIC};
use journal_writer::{put_count, put_header, put_name, put_record};
use recovery::Found;
use refusal::Refusal;
use std::array;
use std::process::Abort;
use store::Set;

/// A header and two records.
pub const PLAIN: usize = 1552;

/// With the record of the super-journal a-mj after them.
pub const LINKED: usize = 1576;

/// A journal of b, of two pages, both recorded, the second as it is not now; a record that names the
/// super-journal stands after them.
pub fn journal(rt: &impl Abort, name: &[u8]) -> [u8; LINKED] {
    let mut bytes = [0u8; LINKED];
    let first = Page::new(1, 1, Version::Old).bytes();
    let second = Page::new(1, 2, Version::New).bytes();
    let made = [
        put_header(&mut bytes, 7, 2),
        put_record(&mut bytes, 0, 7, 1, &first),
        put_record(&mut bytes, 1, 7, 2, &second),
        put_name(&mut bytes, 2, name),
        put_count(&mut bytes, 2),
    ];
    assert_eq!(rt; made, [Ok(()); 5]);
    bytes
}

/// Harmed journals, each with the place of a byte, the bits of it that are flipped, the length that the
/// journal is cut to, and the record by which it is told.
const HARMS: [(&str, usize, u8, usize, u32); 24] = [
    ("a count of 3", 11, 1, PLAIN, 0),
    ("a count of 1", 11, 3, PLAIN, 0),
    ("a count of 34", 11, 32, PLAIN, 0),
    ("a size of 0", 19, 2, PLAIN, 0),
    ("a size of 4,098", 18, 16, PLAIN, 0),
    ("the sector", 22, 1, PLAIN, 0),
    ("the page", 26, 1, PLAIN, 0),
    ("the first byte of the padding", 28, 1, PLAIN, 0),
    ("the last byte of the padding", 511, 128, PLAIN, 0),
    ("the first page is 2", 515, 3, PLAIN, 1),
    ("the second page is 1", 1035, 3, PLAIN, 2),
    ("the second page is 3, past the size", 1035, 1, PLAIN, 2),
    ("the first checksum", 1031, 1, PLAIN, 1),
    ("a byte that the first one counts", 828, 1, PLAIN, 1),
    ("the second checksum", 1551, 1, PLAIN, 2),
    ("a byte that the second one counts", 1148, 1, PLAIN, 2),
    ("a byte less", 1551, 0, PLAIN - 1, 0),
    ("a byte more", 1551, 0, PLAIN + 1, 0),
    ("no super-journal's name", 1551, 0, PLAIN + 20, 0),
    ("the super-journal record's number", 1555, 1, LINKED, 0),
    ("the super-journal's name", 1556, 1, LINKED, 0),
    ("the name's length", 1563, 1, LINKED, 0),
    ("the name's sum", 1567, 1, LINKED, 0),
    ("the magic", 1575, 1, LINKED, 0),
];

/// Checks that a journal of those bytes is damaged at a record, for either database; the first one of
/// both is told.
fn check_damaged(rt: &impl Abort, word: &str, bytes: &[u8], record: u32) {
    let first = Beside::new(b"a-journal", bytes);
    let second = Beside::new(b"b-journal", bytes);
    check_refused(rt, word, &[first], Refusal::Damaged { file: 4, record });
    check_refused(rt, word, &[second], Refusal::Damaged { file: 5, record });
    check_refused(
        rt,
        word,
        &[second, first],
        Refusal::Damaged { file: 4, record },
    );
}

#[test]
fn each_damaged_journal_is_told(rt: HostRuntime) {
    let sound = journal(&rt, b"a-mj");
    for (word, place, bits, length, record) in HARMS {
        let mut bytes = sound;
        if let Some(byte) = bytes.get_mut(place) {
            *byte ^= bits;
        }
        check_damaged(&rt, word, &bytes[0..length.min(LINKED)], record);
    }
}

/// What follows a name of 33 bytes, each an a: its length, its sum, the magic.
const NAMED: [u8; 16] = [
    0, 0, 0, 33, 0, 0, 0x0c, 0x81, 0xd9, 0xd5, 0x05, 0xf9, 0x20, 0xa1, 0x63, 0xd7,
];

/// A journal with a super-journal's name of 33 bytes.
fn named_too_long(sound: &[u8; LINKED]) -> [u8; PLAIN + 53] {
    array::from_fn(|place| if place < PLAIN + 4 {
        sound[place]
    } else {
        // before what follows the name this is no place of it
        *NAMED.get(place.wrapping_sub(PLAIN + 37)).unwrap_or(&b'a')
    })
}

// No writer makes these two, so they are made byte by byte.
#[test]
fn a_size_and_a_name_one_past_their_limits_are_damage(rt: HostRuntime) {
    let sound = journal(&rt, b"a-mj");
    let mut large = sound;
    large[18] = 0x10;
    large[19] = 0x01;
    check_damaged(&rt, "a size of 4,097", &large[0..PLAIN], 0);
    check_damaged(&rt, "a name of 33 bytes", &named_too_long(&sound), 0);
}

/// 16 slots, each with room for a file longer than any journal.
const LARGE: usize = 16 * 20_000;

#[test]
fn a_file_longer_than_any_journal_goes_by_its_header(rt: HostRuntime) {
    let sound = journal(&rt, b"a-mj");
    for (magic, refusal) in [
        (MAGIC, Some(Refusal::Damaged { file: 5, record: 0 })),
        ([0; 8], None),
    ] {
        let mut image = [0u8; LARGE];
        let mut card = DirectCard::new(&mut image, 3);
        let databases = make_databases(&mut card, 2);
        let made = [
            databases,
            card.create(b"b-journal"),
            card.write(b"b-journal", 0, &sound[0..PLAIN]),
            card.write(b"b-journal", 0, &magic),
            card.set_length(b"b-journal", JOURNAL_LIMIT as u32 + 1),
        ];
        let told = Set::new(names(&rt, 2), card).recover().err();
        assert_eq!(rt; (made, told), ([Ok(()); 5], refusal), "{magic:?}");
    }
}

#[test]
fn a_spent_journal_is_deleted_and_a_hot_one_is_played_back(rt: HostRuntime) {
    let linked = journal(&rt, b"a-mj");
    let other = journal(&rt, b"x-mj");
    let mut blank = linked;
    assert_eq!(rt; put_count(&mut blank, 0), Ok(()));
    let mut strange = linked;
    strange[7] ^= 1;
    let journals: [(&str, &[u8], Found); 7] = [
        ("no bytes", &[], Found::Spent),
        ("no whole header", &linked[0..511], Found::Spent),
        ("a count of 0", &blank[0..PLAIN], Found::Spent),
        ("another magic", &strange[0..PLAIN], Found::Spent),
        ("the set's super-journal is absent", &linked, Found::Spent),
        ("another super-journal is absent", &other, Found::Spent),
        (
            "no super-journal",
            &linked[0..PLAIN],
            Found::Hot { records: 2 },
        ),
    ];
    for (word, bytes, found) in journals {
        check_found(&rt, word, &[Beside::new(b"b-journal", bytes)], found);
    }
}
