// A journal in a buffer, and what is made of it.
use journal::{Sound, Span, Verdict, judge};
use journal_writer::{Unfit, fill_journal, put_count};
use super_journal::{put_names, read_names};

/// A journal of the zero page 1 that names a super-journal.
const LONG: usize = 1056;

/// The verdict on a journal of the page 1 under the nonce 7 that names a super-journal of that length.
pub fn sound(length: usize) -> Verdict {
    Verdict::Sound(Sound {
        count: 1,
        nonce: 7,
        size: 1,
        name: Some(Span {
            place: 1036,
            length,
        }),
    })
}

#[test]
fn a_journal_is_sound_just_with_its_count_and_all_its_bytes(rt: HostRuntime) {
    let mut buffer = [0u8; LONG];
    assert_eq!(rt;
        (
            fill_journal(&mut buffer, 7, 1, &[1], Some(b"a-mj")),
            judge(&buffer)
        ),
        (Ok(LONG), Verdict::Spent)
    );
    // the count that it is given, the place of a byte, the bits of it that are flipped, the length that the
    // journal is cut to, and the verdict
    for (count, place, bits, length, verdict) in [
        (1, 0, 0, LONG, sound(4)),
        (1, 0, 0, 1055, Verdict::Damaged { record: 0 }),
        (1, 0, 0, 511, Verdict::Spent),
        (2, 0, 0, LONG, Verdict::Damaged { record: 0 }),
        (1, 0, 1, LONG, Verdict::Spent),
        (1, 500, 1, LONG, Verdict::Damaged { record: 0 }),
        (1, 516 + 312, 1, LONG, Verdict::Damaged { record: 1 }),
        (1, 1036, 1, LONG, Verdict::Damaged { record: 0 }),
        (1, 0, 0, LONG, sound(4)),
    ] {
        assert_eq!(rt; put_count(&mut buffer, count), Ok(()));
        let mut harmed = buffer;
        harmed[place] ^= bits;
        assert_eq!(rt;
            judge(&harmed[0..length]),
            verdict,
            "count {count}, {bits} at {place}, length {length}"
        );
    }
}

/// Journals that name m: the size of the database, the pages, and what is answered where there is room for
/// `LONG` bytes.
const FILLS: [(u32, &[u32], Result<usize, Unfit>); 5] = [
    (1, &[2], Err(Unfit::Limit)),
    (3, &[1, 3, 3], Err(Unfit::Limit)),
    (3, &[1, 3], Err(Unfit::Room)),
    (4097, &[1], Err(Unfit::Limit)),
    (1, &[1], Ok(1053)),
];

#[test]
fn what_a_journal_cannot_be_is_refused(rt: HostRuntime) {
    let mut buffer = [0u8; LONG];
    for (size, pages, answer) in FILLS {
        assert_eq!(rt;
            fill_journal(&mut buffer, 7, size, pages, Some(b"m")),
            answer,
            "{pages:?} of {size}"
        );
    }
}

#[test]
fn a_super_journal_is_read_back(rt: HostRuntime) {
    let mut buffer = [7u8; 32];
    // the second list is refused, and leaves the first
    assert_eq!(rt;
        [
            put_names(&mut buffer, &[b"a-journal", b"b-journal"]),
            put_names(&mut buffer, &[b"a\0b"])
        ],
        [Ok(20), Err(Unfit::Limit)]
    );
    assert_eq!(rt; &buffer[0..20], b"a-journal\0b-journal\0".as_slice());
    let names = read_names(&buffer[0..20]).expect(&rt, "a super-journal");
    let both: [&[u8]; 2] = [b"a-journal", b"b-journal"];
    assert_eq!(rt; names.as_slice(), both.as_slice());
    assert!(rt; read_names(&buffer[0..19]).is_none());
}
