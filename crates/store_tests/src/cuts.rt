// A power failure at each call of a commit, and at each call of the recovery after it.
//
// Each call of a commit is cut three times, by what the card keeps; each call of the recovery after such a
// cut three times too.
use crate::contents::{
    IMAGE, Version, check_all, commit_new, make_databases, names, ready, stopped_by,
};
use crate::trials::calls_of;
use card::Card;
use delayed_card::DelayedCard;
use halves::{CHOICES, Kept};
use refusal::{Refusal, Step};
use std::process::Abort;
use store::Set;

/// A power failure: at which call from now, and what the card keeps.
// The program of power cuts has such a struct too: the two share no crate, and one for ten lines is no plainer.
#[derive(Clone, Copy)]
pub struct Cut {
    call: u32,
    kept: Kept,
}

impl Cut {
    /// The failure at that call, where the card keeps that.
    pub fn new(call: u32, kept: Kept) -> Cut {
        Cut { call, kept }
    }

    /// Tells a card to lose power so.
    // What is kept goes to the card by its number, by a rule of the project (docs/CARD.md): as, since the
    // variants stand in the order of the numbers.
    fn tell(self, rt: &impl Abort, card: &mut DelayedCard<'_>) {
        assert_eq!(rt; card.lose_power_at(self.call, self.kept as u8), Ok(()));
    }
}

/// A delayed card with the files of the first databases, that is to lose power.
pub fn delayed<'a>(
    rt: &impl Abort,
    image: &'a mut [u8; 2 * IMAGE],
    count: u8,
    cut: Cut,
) -> DelayedCard<'a> {
    let mut card = DelayedCard::new(image, 3);
    make_databases(&mut card, count).expect(rt, "room for the databases");
    cut.tell(rt, &mut card);
    card
}

/// The number of the first call after a recovery where no journal is.
pub fn call_after_recovery(rt: &impl Abort, count: u8) -> u32 {
    let quiet = calls_of(rt, |call| {
        let mut image = [0u8; 2 * IMAGE];
        let card = delayed(rt, &mut image, count, Cut::new(call, Kept::Synced));
        Set::new(names(rt, count), card).recover().is_ok()
    });
    quiet.saturating_add(1)
}

/// What all databases must show after a commit with that answer. The deletion that makes the commit
/// count is done by a card that keeps what it held when power failed, or a mix.
fn shown_after(rt: &impl Abort, answer: Result<usize, Refusal>, kept: Kept) -> Version {
    let Some(fault) = stopped_by(rt, answer) else {
        return Version::New;
    };
    match fault.step {
        Some(Step::C1 | Step::C2 | Step::C3) => Version::Old,
        Some(Step::C4) if kept == Kept::Synced => Version::Old,
        Some(Step::C4) => Version::New,
        _ => panic!(rt; "a commit tells one of its steps"),
    }
}

/// Cuts a commit, recovers, and checks what is shown. Tells whether the commit came through whole.
fn check_commit(rt: &impl Abort, count: u8, cut: Cut) -> bool {
    let mut image = [0u8; 2 * IMAGE];
    let mut set = ready(rt, delayed(rt, &mut image, count, cut), count);
    let answer = commit_new(&mut set, count);
    let whole = set.card().powered();
    if whole {
        assert_eq!(rt;
            (answer, set.is_ready(), set.recover().is_ok()),
            (Ok(0), true, false)
        );
    }
    assert_eq!(rt;
        (set.is_ready(), set.recover().is_ok(), set.is_ready()),
        (false, true, true)
    );
    check_all(rt, &mut set, count, shown_after(rt, answer, cut.kept));
    whole
}

/// Cuts a commit, then the recovery after it, recovers, and checks what is shown. Tells whether the
/// recovery came through whole.
fn check_recovery(rt: &impl Abort, count: u8, first: Cut, second: Cut) -> bool {
    let mut image = [0u8; 2 * IMAGE];
    let mut set = ready(rt, delayed(rt, &mut image, count, first), count);
    let answer = commit_new(&mut set, count);
    let mut card = set.into_card();
    second.tell(rt, &mut card);
    let mut set = Set::new(names(rt, count), card);
    let whole = set.recover().is_ok();
    let mut card = set.into_card();
    Cut::new(u32::MAX, Kept::Synced).tell(rt, &mut card);
    let mut set = ready(rt, card, count);
    check_all(rt, &mut set, count, shown_after(rt, answer, first.kept));
    whole
}

/// Cuts a commit at each of its calls, and the recovery after each cut at each of its calls; what the card
/// keeps at either is any of the three. Checks that the commit has so many calls, and tells how many
/// recoveries were cut.
// Loops and no folds: the check proves each closure as three functions.
fn cut_recoveries(rt: &impl Abort, count: u8, calls: u32) -> u32 {
    let start = call_after_recovery(rt, count);
    let end = start.saturating_add(calls);
    let mut cuts = 0u32;
    for kept in CHOICES {
        // the calls of the card go by number
        for call in start..end {
            let first = Cut::new(call, kept);
            assert!(rt; !check_commit(rt, count, first), "call {call}, {kept:?}");
            for kept in CHOICES {
                let cut = calls_of(
                    rt,
                    |call| check_recovery(rt, count, first, Cut::new(call, kept)),
                );
                cuts = cuts.saturating_add(cut);
            }
        }
        assert!(rt;
            check_commit(rt, count, Cut::new(end, kept)),
            "past the last call, {kept:?}"
        );
    }
    cuts
}

/// How many databases, how many calls a commit of them has, and how many recoveries are cut after a cut at
/// one of these.
const CUTS: [(u8, u32, u32); 3] = [(1, 11, 810), (2, 26, 4_143), (4, 48, 15_021)];

#[test]
fn each_cut_of_a_commit_and_of_the_recovery_after_it(rt: HostRuntime) {
    for (count, calls, recoveries) in CUTS {
        let cuts = cut_recoveries(&rt, count, calls);
        assert_eq!(rt; cuts, recoveries, "{count} databases");
    }
}
