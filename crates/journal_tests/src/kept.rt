// A journal on a direct card.
use crate::judged::sound;
use card::{Card, CardCall, CardFault, Cause};
use direct_card::DirectCard;
use journal::{JOURNAL_LIMIT, JournalFault, judge_file};
use journal_writer::{fill_journal, store_journal};

/// The fault of a write to a file that is absent.
const ABSENT: JournalFault = JournalFault {
    card: CardFault {
        cause: Cause::Absent,
        call: CardCall::Write,
        origin: 9,
    },
    record: 0,
};

#[test]
fn a_stored_journal_is_judged_sound(rt: HostRuntime) {
    let mut image = [0u8; 32768];
    let mut card = DirectCard::new(&mut image, 9);
    let mut buffer = [0u8; JOURNAL_LIMIT];
    assert_eq!(rt;
        (
            judge_file(&mut card, b"a-journal", &mut buffer),
            store_journal(&mut card, b"a-journal", b"", 0)
        ),
        (Ok(None), Err(ABSENT))
    );
    let _ = fill_journal(&mut buffer, 7, 1, &[1], Some(b"m"));
    let _ = card.create(b"a-journal");
    assert_eq!(rt;
        (
            store_journal(&mut card, b"a-journal", &buffer[0..1053], 1),
            judge_file(&mut card, b"a-journal", &mut buffer)
        ),
        (Ok(()), Ok(Some(sound(1))))
    );
}
