// A transaction's memory at its limits.
use pager::Memory;
use refusal::Refusal;
use std::process::Abort;

/// A page of one byte value.
const PAGE: [u8; 512] = [7; 512];

#[test]
fn the_last_page_is_4096(rt: HostRuntime) {
    let mut m = Memory::new(1, [4095, 0, 0, 0]);
    assert_eq!(rt;
        [m.write(0, 4096, &PAGE), m.write(0, 4097, &PAGE)],
        [Ok(()), Err(Refusal::Page)]
    );
    assert_eq!(rt;
        (m.size(0), m.next_changed(0, 0), m.next_changed(0, 4096)),
        (Ok(4096), Ok(Some(4096)), Ok(None))
    );
}

/// Writes to two databases of one page and of none: the database, the page, the bytes, and the answer.
const TESTS: [(usize, u32, &[u8], Result<(), Refusal>); 5] = [
    (2, 9, b"short", Err(Refusal::NoDatabase)),
    (1, 9, b"short", Err(Refusal::BufferLength)),
    (1, 2, &PAGE, Err(Refusal::Page)),
    (0, 0, &PAGE, Err(Refusal::Page)),
    (1, 1, &PAGE, Ok(())),
];

#[test]
fn tests_go_in_order(rt: HostRuntime) {
    let mut m = Memory::new(2, [1, 0, 0, 0]);
    for (database, page, bytes, answer) in TESTS {
        assert_eq!(rt;
            m.write(database, page, bytes),
            answer,
            "page {page} of {database}"
        );
    }
}

#[test]
fn four_databases_share_32_pages(rt: HostRuntime) {
    let mut m = Memory::new(9, [0; 4]);
    // pages and databases go by number in a call
    for p in 1..=8 {
        for d in 0..4 {
            assert_eq!(rt; m.write(d, p, &PAGE), Ok(()));
        }
    }
    assert_eq!(rt;
        [m.write(3, 9, &PAGE), m.write(3, 8, &PAGE)],
        [Err(Refusal::ChangedFull), Ok(())]
    );
    assert_eq!(rt;
        [m.changed_count(2), m.changed_count(4)],
        [Ok(8), Err(Refusal::NoDatabase)]
    );
}

#[test]
fn eight_savepoints_stand(rt: HostRuntime) {
    let mut m = Memory::new(1, [0; 4]);
    // a savepoint's number is what the call tells
    for k in 1..=8 {
        assert_eq!(rt; m.push(), Ok(k));
    }
    assert_eq!(rt; m.push(), Err(Refusal::SavepointsFull));
    for (k, answer, left) in [
        (9, Err(Refusal::NoSavepoint), 8),
        (0, Err(Refusal::NoSavepoint), 8),
        (3, Ok(()), 2),
    ] {
        assert_eq!(rt; (m.release(k), m.savepoints()), (answer, left), "{k}");
    }
}

/// Checks a savepoint by its number, writes of pages after it, each of a database, and how many pages are
/// saved then.
fn check_savepoint(
    rt: &impl Abort,
    m: &mut Memory,
    number: usize,
    writes: &[(usize, u32)],
    saved: usize,
) {
    assert_eq!(rt; m.push(), Ok(number));
    for (database, page) in writes {
        assert_eq!(rt;
            m.write(*database, *page, &PAGE),
            Ok(()),
            "page {page} of {database} after {number}"
        );
    }
    assert_eq!(rt; m.saved_count(), saved, "after {number}");
}

#[test]
fn a_page_is_saved_once(rt: HostRuntime) {
    let mut m = Memory::new(1, [0; 4]);
    check_savepoint(&rt, &mut m, 1, &[(0, 1), (0, 1)], 1);
    check_savepoint(&rt, &mut m, 2, &[(0, 1), (0, 2)], 3);
    for (k, saved) in [(2, 2), (1, 0)] {
        assert_eq!(rt; (m.release(k), m.saved_count()), (Ok(()), saved), "{k}");
    }
    assert_eq!(rt; m.size(0), Ok(2));
}

/// The first eight pages of the first database.
const EIGHT: [(usize, u32); 8] = [
    (0, 1),
    (0, 2),
    (0, 3),
    (0, 4),
    (0, 5),
    (0, 6),
    (0, 7),
    (0, 8),
];

#[test]
fn savepoints_share_32_saved_pages(rt: HostRuntime) {
    let mut m = Memory::new(1, [0; 4]);
    for (k, saved) in [(1, 8), (2, 16), (3, 24), (4, 32)] {
        check_savepoint(&rt, &mut m, k, &EIGHT, saved);
    }
    assert_eq!(rt;
        [m.write(0, 8, &PAGE), m.write(0, 9, &PAGE)],
        [Ok(()), Err(Refusal::SavedFull)]
    );
    assert_eq!(rt;
        (m.release(2), m.saved_count(), m.write(0, 9, &PAGE)),
        (Ok(()), 8, Ok(()))
    );
}

#[test]
fn sizes_grow_over_nested_savepoints_and_shrink_when_cleared(rt: HostRuntime) {
    let start = [3, 0, 4095, 1];
    let mut m = Memory::new(4, start);
    check_savepoint(&rt, &mut m, 1, &[(0, 4), (1, 1), (2, 4096), (3, 2)], 4);
    check_savepoint(&rt, &mut m, 2, &[(0, 5), (1, 2), (3, 3)], 7);
    check_savepoint(&rt, &mut m, 3, &[(0, 6)], 8);
    assert_eq!(rt;
        (m.release(3), m.savepoints(), m.saved_count(), m.sizes()),
        (Ok(()), 2, 8, [6, 2, 4096, 3])
    );
    // the only call that makes a database smaller: none steps back to a savepoint; two stand here
    m.clear(start);
    assert_eq!(rt;
        (m.count(), m.sizes(), m.savepoints(), m.saved_count()),
        (4, start, 0, 0)
    );
    for d in 0..4 {
        assert_eq!(rt; m.changed_count(d), Ok(0), "{d}");
    }
    assert_eq!(rt;
        [m.release(2), m.release(1), m.write(0, 5, &PAGE)],
        [
            Err(Refusal::NoSavepoint),
            Err(Refusal::NoSavepoint),
            Err(Refusal::Page)
        ]
    );
    // savepoints are numbered from 1 again, and a page that was saved before is saved anew
    check_savepoint(&rt, &mut m, 1, &[(0, 4)], 1);
    assert_eq!(rt;
        [m.write(0, 6, &PAGE), m.write(0, 5, &PAGE)],
        [Err(Refusal::Page), Ok(())]
    );
    assert_eq!(rt;
        (m.sizes(), m.savepoints(), m.saved_count()),
        ([5, 0, 4095, 1], 1, 2)
    );
}
