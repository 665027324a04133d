// Super-journals beside the databases, and databases that are absent or have a bad length.
use crate::contents::{IMAGE, direct, names};
use crate::damaged::journal;
use crate::scenes::{Beside, check_found, check_refused};
use card::Card;
use recovery::Found;
use refusal::Refusal;
use store::Set;
use super_journal::put_names;

/// Super-journals that have not the form of a list.
const SHAPELESS: [(&str, &[u8]); 7] = [
    ("no bytes", b""),
    ("an empty name", b"\0"),
    ("no end", b"b-journal"),
    ("a second end", b"b-journal\0\0"),
    ("five names", b"a\0b\0c\0d\0e\0"),
    ("a name of 33 bytes", b"aaaaaaaaaaaaaaaaaaaaaaaaaaaaaaaaa\0"),
    ("more bytes than four names have", &[b'a'; 200]),
];

#[test]
fn a_super_journal_is_the_sets_and_has_the_form_of_a_list(rt: HostRuntime) {
    let bytes = journal(&rt, b"a-mj");
    let hot = Beside::new(b"b-journal", &bytes);
    for (word, form) in SHAPELESS {
        let ours = Beside::new(b"a-mj", form);
        check_refused(
            &rt,
            word,
            &[hot, ours],
            Refusal::Damaged { file: 8, record: 0 },
        );
    }
    let mut list = [0u8; 20];
    let length = put_names(&mut list, &[b"b-journal", b"z-journal"]);
    assert_eq!(rt; (length, list), (Ok(20), *b"b-journal\0z-journal\0"));
    let ours = Beside::new(b"a-mj", &list);
    let listed = Beside::new(b"z-journal", b"");
    check_refused(
        &rt,
        "a listed file",
        &[hot, ours, listed],
        Refusal::Foreign(9),
    );
    check_found(
        &rt,
        "no listed file",
        &[hot, ours],
        Found::Hot { records: 2 },
    );
    let stray = Beside::new(b"a-mj", b"any bytes");
    check_found(&rt, "no journal", &[stray], Found::None);
}

#[test]
fn another_super_journal_is_foreign(rt: HostRuntime) {
    let bytes = journal(&rt, b"x-mj");
    let first = Beside::new(b"a-journal", &bytes);
    let second = Beside::new(b"b-journal", &bytes);
    let other = Beside::new(b"x-mj", b"");
    check_refused(&rt, "of one", &[second, other], Refusal::Foreign(5));
    check_refused(&rt, "of both", &[second, other, first], Refusal::Foreign(4));
}

#[test]
fn a_database_has_whole_pages(rt: HostRuntime) {
    let refused = Some(Refusal::Database(1));
    let lengths = [
        (None, refused),
        (Some(0), refused),
        (Some(511), refused),
        (Some(513), refused),
        (Some(512), None),
    ];
    for (length, refusal) in lengths {
        let mut image = [0u8; IMAGE];
        let mut card = direct(&rt, &mut image, 2);
        let made = match length {
            Some(length) => card.set_length(b"b", length),
            None => card.delete(b"b"),
        };
        let mut set = Set::new(names(&rt, 2), card);
        assert_eq!(rt;
            (made, set.recover().err(), set.is_ready()),
            (Ok(()), refusal, refusal.is_none()),
            "{length:?}"
        );
    }
}

#[test]
fn an_absent_first_database_is_told_first(rt: HostRuntime) {
    let mut image = [0u8; IMAGE];
    let mut card = direct(&rt, &mut image, 2);
    let made = [
        card.delete(b"a"),
        card.delete(b"b"),
        card.create(b"b-journal"),
    ];
    let mut set = Set::new(names(&rt, 2), card);
    let refusal = set.recover().err();
    let mut card = set.into_card();
    let lengths = [card.length(b"a"), card.length(b"b-journal")];
    assert_eq!(rt;
        (made, refusal, lengths),
        (
            [Ok(()); 3],
            Some(Refusal::Database(0)),
            [Ok(None), Ok(Some(0))]
        )
    );
}
