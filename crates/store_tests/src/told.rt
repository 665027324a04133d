// The file that a refused call of a recovery tells.
use crate::contents::{IMAGE, layer, names};
use crate::damaged::{LINKED, journal};
use crate::scenes::{Beside, scene};
use refusal::Refusal;
use std::process::Abort;
use store::Set;

/// The file that is told where a recovery of the scene has that call refused; none where it is refused
/// for what it finds.
fn file_told(rt: &impl Abort, files: &[Beside<'_>], call: u32) -> Option<usize> {
    let mut image = [0u8; IMAGE];
    let card = scene(rt, &mut image, files);
    let mut set = Set::new(names(rt, 2), layer(rt, card, &[call]));
    match set.recover() {
        Err(Refusal::Card(fault)) => Some(fault.file),
        _ => None,
    }
}

/// Checks the files that the calls of a recovery of the scene, which a word names, tell, in order, up to where it is refused
/// for what it finds.
fn check_told(rt: &impl Abort, word: &str, files: &[Beside<'_>], told: &[usize]) {
    let mut call = 1u32;
    for file in told {
        assert_eq!(rt;
            file_told(rt, files, call),
            Some(*file),
            "{word}, call {call}"
        );
        call = call.saturating_add(1);
    }
    assert_eq!(rt; file_told(rt, files, call), None, "{word}");
}

#[test]
fn a_file_that_a_journal_names_is_told(rt: HostRuntime) {
    let bytes = journal(&rt, b"x-mj");
    let hot = Beside::new(b"b-journal", &bytes);
    let other = Beside::new(b"x-mj", b"");
    check_told(&rt, "another name", &[hot, other], &[0, 1, 4, 5, 5, 9]);
    // a shorter name ends sooner
    let bytes = journal(&rt, b"b");
    let hot = Beside::new(b"b-journal", &bytes[0..LINKED - 3]);
    check_told(&rt, "a database", &[hot], &[0, 1, 4, 5, 5, 1]);
}

#[test]
fn a_file_that_a_super_journal_lists_is_told(rt: HostRuntime) {
    let bytes = journal(&rt, b"a-mj");
    let hot = Beside::new(b"b-journal", &bytes);
    let ours = Beside::new(b"a-mj", b"z-journal\0");
    let other = Beside::new(b"z-journal", b"");
    check_told(
        &rt,
        "another name",
        &[hot, ours, other],
        &[0, 1, 4, 5, 5, 8, 8, 8, 9],
    );
    let ours = Beside::new(b"a-mj", b"a\0");
    check_told(
        &rt,
        "a database",
        &[hot, ours],
        &[0, 1, 4, 5, 5, 8, 8, 8, 0],
    );
}
