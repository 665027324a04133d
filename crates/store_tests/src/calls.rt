// The calls of a set at their limits.
use crate::contents::{IMAGE, Page, Version, direct, layer, names, ready};
use crate::cuts::{Cut, call_after_recovery, delayed};
use crate::script::{Answer, Call, SEVENS, Told, check_calls};
use card::{CardCall, CardFault, Cause};
use halves::Kept;
use journal::{JournalFault, PAGE};
use recovery::Found;
use refusal::{Refusal, SetFault};
use store::Set;

/// The refusal of a read of the first database, where the card answers its own read with a fault.
fn unread(cause: Cause, origin: u8) -> Refusal {
    let card = CardFault {
        cause,
        call: CardCall::Read,
        origin,
    };
    Refusal::Card(SetFault {
        journal: JournalFault { card, record: 0 },
        step: None,
        file: 0,
    })
}

/// The calls with a token that is not the running transaction's.
const VOID: [(Call, Answer); 5] = [
    (Call::Write(0, 1, PAGE), Err(Refusal::Transaction)),
    (Call::Write(9, 0, 0), Err(Refusal::Transaction)),
    (Call::Savepoint, Err(Refusal::Transaction)),
    (Call::Release(0), Err(Refusal::Transaction)),
    (Call::Release(1), Err(Refusal::Transaction)),
];

/// Reads of a cold set, of a page that there is and of none.
const COLD: [(Call, Answer); 2] = [
    (Call::Read(0, 1, PAGE), Err(Refusal::Cold)),
    (Call::Read(9, 0, 0), Err(Refusal::Cold)),
];

#[test]
fn a_cold_set_has_no_transaction(rt: HostRuntime) {
    let mut image = [0u8; IMAGE];
    let card = direct(&rt, &mut image, 2);
    let mut set = Set::new(names(&rt, 2), card);
    let first = set.begin(7);
    check_calls(&rt, &mut set, &first, &COLD);
    check_calls(&rt, &mut set, &first, &VOID);
    let told = (first.number(), set.commit(first));
    let second = set.begin(7);
    assert_eq!(rt;
        (told, set.rollback(second), set.is_ready()),
        (
            (0, Err(Refusal::Transaction)),
            Err(Refusal::Transaction),
            false
        )
    );
}

/// Reads of two databases of two pages each, with the first test that fails.
const READS: [(Call, Answer); 9] = [
    (Call::Read(2, 0, 0), Err(Refusal::NoDatabase)),
    (Call::Read(1, 0, 511), Err(Refusal::BufferLength)),
    (Call::Read(1, 0, 513), Err(Refusal::BufferLength)),
    (Call::Read(1, 0, 512), Err(Refusal::Page)),
    (Call::Read(1, 3, 512), Err(Refusal::Page)),
    (Call::Read(1, u32::MAX, 512), Err(Refusal::Page)),
    (Call::Read(1, 2, 512), Ok(Told::Sevens(false))),
    (Call::Size(1), Ok(Told::Number(2))),
    (Call::Size(2), Err(Refusal::NoDatabase)),
];

#[test]
fn one_transaction_runs_at_a_time(rt: HostRuntime) {
    let mut image = [0u8; IMAGE];
    let mut set = ready(&rt, direct(&rt, &mut image, 2), 2);
    let first = set.begin(7);
    let void = set.begin(7);
    check_calls(&rt, &mut set, &void, &VOID);
    let told = (first.number(), void.number(), set.rollback(void));
    let written = set.write(&first, 0, 1, &SEVENS);
    assert_eq!(rt;
        (told, written, set.commit(first), set.is_ready()),
        ((1, 0, Err(Refusal::Transaction)), Ok(()), Ok(0), true)
    );
}

#[test]
fn a_token_of_an_earlier_transaction_is_stale(rt: HostRuntime) {
    let mut image = [0u8; IMAGE];
    let mut set = ready(&rt, direct(&rt, &mut image, 2), 2);
    let stale = set.begin(7);
    assert!(rt; set.recover().is_ok());
    // a read asks for no transaction
    check_calls(&rt, &mut set, &stale, &READS);
    Page::new(1, 2, Version::Old).check(&rt, &mut set);
    let running = set.begin(7);
    check_calls(&rt, &mut set, &stale, &VOID);
    let numbers = [stale.number(), running.number()];
    assert_eq!(rt;
        (numbers, set.commit(stale), set.rollback(running)),
        ([1, 2], Err(Refusal::Transaction), Ok(()))
    );
}

#[test]
fn transactions_count_up_from_1(rt: HostRuntime) {
    let mut image = [0u8; IMAGE];
    let mut set = ready(&rt, direct(&rt, &mut image, 2), 2);
    // a transaction's number is what the call tells
    for k in 1..6 {
        let t = set.begin(7);
        assert_eq!(rt; (t.number(), set.rollback(t)), (k, Ok(())));
    }
    assert!(rt; set.recover().is_ok());
    let t = set.begin(7);
    assert_eq!(rt; (t.number(), set.commit(t)), (6, Ok(0)));
}

/// Writes to them, with the first test that fails; the last one makes a database a page longer.
const WRITES: [(Call, Answer); 7] = [
    (Call::Write(2, 0, 0), Err(Refusal::NoDatabase)),
    (Call::Write(1, 0, 511), Err(Refusal::BufferLength)),
    (Call::Write(1, 0, 512), Err(Refusal::Page)),
    (Call::Write(1, 4, 512), Err(Refusal::Page)),
    (Call::Write(1, 3, 512), Ok(Told::Done)),
    (Call::Size(1), Ok(Told::Number(3))),
    (Call::Read(1, 3, 512), Ok(Told::Sevens(true))),
];

#[test]
fn reads_and_writes_are_refused_in_order(rt: HostRuntime) {
    let mut image = [0u8; IMAGE];
    let mut set = ready(&rt, direct(&rt, &mut image, 2), 2);
    let t = set.begin(7);
    check_calls(&rt, &mut set, &t, &READS);
    check_calls(&rt, &mut set, &t, &WRITES);
    let ended = (set.rollback(t), set.size(1));
    assert_eq!(rt;
        (ended, set.read(1, 3, &mut [0; PAGE])),
        ((Ok(()), Ok(2)), Err(Refusal::Page))
    );
    Page::new(1, 2, Version::Old).check(&rt, &mut set);
}

/// Savepoints that are made and released, one after another.
const SAVEPOINTS: [(Call, Answer); 15] = [
    (Call::Release(1), Err(Refusal::NoSavepoint)),
    (Call::Savepoint, Ok(Told::Number(1))),
    (Call::Savepoint, Ok(Told::Number(2))),
    (Call::Savepoint, Ok(Told::Number(3))),
    (Call::Savepoint, Ok(Told::Number(4))),
    (Call::Savepoint, Ok(Told::Number(5))),
    (Call::Savepoint, Ok(Told::Number(6))),
    (Call::Savepoint, Ok(Told::Number(7))),
    (Call::Savepoint, Ok(Told::Number(8))),
    (Call::Savepoint, Err(Refusal::SavepointsFull)),
    (Call::Release(0), Err(Refusal::NoSavepoint)),
    (Call::Release(9), Err(Refusal::NoSavepoint)),
    (Call::Release(3), Ok(Told::Done)),
    (Call::Release(3), Err(Refusal::NoSavepoint)),
    (Call::Savepoint, Ok(Told::Number(3))),
];

/// Calls where 31 pages of the other database are changed, each saved by savepoint 1; at last none stands.
const FULL: [(Call, Answer); 8] = [
    (Call::Write(1, 1, PAGE), Ok(Told::Done)),
    (Call::Write(1, 2, PAGE), Err(Refusal::ChangedFull)),
    (Call::Savepoint, Ok(Told::Number(2))),
    (Call::Write(0, 1, PAGE), Err(Refusal::SavedFull)),
    (Call::Release(2), Ok(Told::Done)),
    (Call::Write(0, 1, PAGE), Ok(Told::Done)),
    (Call::Release(1), Ok(Told::Done)),
    (Call::Write(1, 2, PAGE), Err(Refusal::ChangedFull)),
];

#[test]
fn eight_savepoints_stand_and_a_transaction_changes_and_saves_32_pages(rt: HostRuntime) {
    let mut image = [0u8; IMAGE];
    let mut set = ready(&rt, direct(&rt, &mut image, 2), 2);
    let t = set.begin(7);
    check_calls(&rt, &mut set, &t, &SAVEPOINTS);
    let committed = set.commit(t);
    let t = set.begin(7);
    let saving = set.savepoint(&t);
    // a page goes by number in a call
    for page in 1..32 {
        check_calls(
            &rt,
            &mut set,
            &t,
            &[(Call::Write(0, page, PAGE), Ok(Told::Done))],
        );
    }
    check_calls(&rt, &mut set, &t, &FULL);
    let ended = [set.write(&t, 0, 31, &[8; PAGE]), set.rollback(t)];
    assert_eq!(rt; (committed, saving, ended), (Ok(0), Ok(1), [Ok(()); 2]));
}

#[test]
fn a_commit_of_nothing_calls_no_card(rt: HostRuntime) {
    let next = call_after_recovery(&rt, 2);
    let mut image = [0u8; IMAGE];
    let card = layer(&rt, direct(&rt, &mut image, 2), &[next]);
    let mut set = ready(&rt, card, 2);
    let t = set.begin(7);
    let committed = (set.commit(t), set.is_ready());
    let mut bytes = [0u8; PAGE];
    let faulty = (set.read(0, 1, &mut bytes), set.is_ready());
    assert_eq!(rt;
        (committed, faulty, set.read(0, 1, &mut bytes)),
        ((Ok(0), true), (Err(unread(Cause::Device, 4)), true), Ok(()))
    );
}

#[test]
fn a_commit_that_only_adds_a_page_is_undone(rt: HostRuntime) {
    let mut image = [0u8; IMAGE];
    // the ninth call of the commit deletes the journal: after its making, the page, and the syncs
    let deletion = call_after_recovery(&rt, 1).saturating_add(8);
    let card = layer(&rt, direct(&rt, &mut image, 1), &[deletion]);
    let mut set = ready(&rt, card, 1);
    let t = set.begin(7);
    let written = set.write(&t, 0, 3, &SEVENS);
    let committed = (set.size(0), set.commit(t).is_err(), set.is_ready());
    let found = set.recover().expect(&rt, "no good recovery").found[0];
    assert_eq!(rt;
        (written, committed, found, set.size(0)),
        (
            Ok(()),
            (Ok(3), true, false),
            Found::Hot { records: 1 },
            Ok(2)
        )
    );
    Page::new(0, 2, Version::Old).check(&rt, &mut set);
}

#[test]
fn a_read_without_power_leaves_a_cold_set(rt: HostRuntime) {
    let next = call_after_recovery(&rt, 2);
    let mut image = [0u8; 2 * IMAGE];
    let card = delayed(&rt, &mut image, 2, Cut::new(next, Kept::Synced));
    let mut set = ready(&rt, card, 2);
    let t = set.begin(7);
    let calls = [
        (Call::Write(0, 3, PAGE), Ok(Told::Done)),
        (Call::Read(0, 3, PAGE), Ok(Told::Sevens(true))),
        (Call::Read(0, 1, PAGE), Err(unread(Cause::Power, 3))),
        (Call::Read(0, 1, PAGE), Err(Refusal::Cold)),
    ];
    check_calls(&rt, &mut set, &t, &calls);
    assert_eq!(rt;
        (set.commit(t), set.size(0)),
        (Err(Refusal::Transaction), Ok(2))
    );
    assert_eq!(rt;
        (set.recover().is_ok(), set.read(0, 1, &mut [0; PAGE])),
        (true, Ok(()))
    );
}
