// A device fault at each call of a commit, and one more at each call after it.
use crate::contents::{IMAGE, Version, check_all, commit_new, direct, layer, ready, stopped_by};
use crate::cuts::call_after_recovery;
use card::Cause;
use refusal::Refusal;
use std::process::Abort;

/// No call of a commit has so many calls after it, with those of the recovery after the commit.
const CALLS: u32 = 100;

/// Whether a commit was done with no journal left, and whether the recovery after it was good.
// Two flags: one caller asks for each, and neither follows from the other.
#[derive(Clone, Copy)]
struct Outcome {
    committed: bool,
    recovered: bool,
}

/// What all databases must show after a commit with that answer: a refused deletion is not done.
fn shown_after(rt: &impl Abort, answer: Result<usize, Refusal>) -> Version {
    let Some(fault) = stopped_by(rt, answer) else {
        return Version::New;
    };
    assert_eq!(rt; fault.journal.card.cause, Cause::Device);
    Version::Old
}

/// Commits and recovers with some calls refused; then recovers, and checks what is shown.
fn check_faults(rt: &impl Abort, count: u8, refused: &[u32]) -> Outcome {
    let mut image = [0u8; IMAGE];
    let card = layer(rt, direct(rt, &mut image, count), refused);
    let mut set = ready(rt, card, count);
    let answer = commit_new(&mut set, count);
    let committed = answer == Ok(0);
    let was_ready = set.is_ready();
    let recovered = set.recover().is_ok();
    assert_eq!(rt; [was_ready, set.is_ready()], [committed, recovered]);
    let mut set = ready(rt, set.into_card().into_below(), count);
    check_all(rt, &mut set, count, shown_after(rt, answer));
    Outcome {
        committed,
        recovered,
    }
}

/// Refuses each call of a commit, alone and with each call after it. Checks that the commit has so many
/// calls, and tells how many recoveries were refused.
// Loops and no folds: the check proves each closure as three functions.
fn refused_recoveries(rt: &impl Abort, count: u8, calls: u32) -> u32 {
    let start = call_after_recovery(rt, count);
    let end = start.saturating_add(calls);
    let mut refused = 0u32;
    // the calls of the card go by number
    for call in start..end {
        assert!(rt; !check_faults(rt, count, &[call]).committed, "call {call}");
        let mut recovered = false;
        for after in 1..=CALLS {
            recovered = check_faults(rt, count, &[call, call.saturating_add(after)]).recovered;
            refused = refused.saturating_add(u32::from(!recovered));
        }
        assert!(rt; recovered, "{CALLS} calls after {call}");
    }
    assert!(rt;
        check_faults(rt, count, &[end]).committed,
        "past the last call"
    );
    refused
}

/// How many databases, how many calls a commit of them has, and how many recoveries are refused with a
/// second fault after one at one of these.
const FAULTS: [(u8, u32, u32); 3] = [(1, 11, 94), (2, 26, 468), (4, 48, 1671)];

#[test]
fn each_fault_of_a_commit_and_of_the_recovery_after_it(rt: HostRuntime) {
    for (count, calls, recoveries) in FAULTS {
        let refused = refused_recoveries(&rt, count, calls);
        assert_eq!(rt; refused, recoveries, "{count} databases");
    }
}
