// What the program's sets of databases share: cards, cuts and files; and the three databases, with the
// transaction that changes two of them.
use anyhow::Context;
use card::{Card, CardFault};
use delayed_card::DelayedCard;
use halves::Kept;
use journal::PAGE;
use refusal::Refusal;
use std::alloc::Global;
use store::Set;
use store::checked_names::{Names, checked};

/// Two halves of 16 slots of 4,096 bytes.
pub const IMAGE: usize = 131_072;

/// The origin of the cards.
pub const ORIGIN: u8 = 7;

/// The nonce of the transactions.
pub const NONCE: u32 = 7;

/// The names of the three databases.
pub const NAMES: [&[u8]; 3] = [b"probe", b"notes", b"trace"];

/// The names of their files, each after its number.
pub const FILES: [(usize, &str); 7] = [
    (0, "probe"),
    (1, "notes"),
    (2, "trace"),
    (4, "probe-journal"),
    (5, "notes-journal"),
    (6, "trace-journal"),
    (8, "probe-mj"),
];

/// A page as it was, and as the transaction writes it.
const OLD: [u8; PAGE] = [b'o'; PAGE];

const NEW: [u8; PAGE] = [b'N'; PAGE];

/// Power is to fail at a call from now, with what the card then keeps.
// The tests of the set have such a struct too: the two share no crate, and one for ten lines is no plainer.
#[derive(Clone, Copy)]
pub struct Cut {
    call: u32,
    kept: Kept,
}

impl Cut {
    /// The failure at that call, where the card keeps that.
    pub fn new(call: u32, kept: Kept) -> Cut {
        Cut { call, kept }
    }

    /// The same, counted from the end of a recovery of so many databases where no journal is: it asks
    /// for the length of each database twice, of each journal, and of the super-journal.
    pub fn after_recovery(self, databases: u32) -> Cut {
        let calls = databases.saturating_mul(3).saturating_add(1);
        Cut {
            call: self.call.saturating_add(calls),
            kept: self.kept,
        }
    }

    /// Tells a card to lose power so.
    // What is kept goes to the card by its number, by a rule of the project (docs/CARD.md): as, since the
    // variants stand in the order of the numbers.
    pub fn tell(self, card: &mut DelayedCard<'_>) -> anyhow::Result<()> {
        let told = card.lose_power_at(self.call, self.kept as u8);
        told.ok().context("no such cut")
    }
}

/// The names of a set's databases.
// ok, here and in this program: the refusals are no errors of the library's kind, and the program says its own words.
pub fn named(list: &[&[u8]]) -> anyhow::Result<Names> {
    checked(list).ok().context("the names are refused")
}

/// Makes a file of those bytes.
// The tests of the set make theirs by the same three calls: the two share no crate.
pub fn put(card: &mut DelayedCard<'_>, name: &[u8], bytes: &[u8]) -> Result<(), CardFault> {
    card.create(name)?;
    card.write(name, 0, bytes)?;
    card.sync(name)
}

/// A card with the three databases, of two old pages each.
pub fn prepared(image: &mut [u8]) -> anyhow::Result<DelayedCard<'_>> {
    let mut card = DelayedCard::new(image, ORIGIN);
    for name in NAMES {
        let answer = put(&mut card, name, &[b'o'; 2 * PAGE]);
        answer.ok().context("the card has no room")?;
    }
    Ok(card)
}

/// What a transaction answered: its number, each call before the commit, and the commit.
#[derive(Drop)]
pub struct Answers {
    pub number: u32,
    pub calls: [(&'static str, Result<(), Refusal>); 5],
    pub commit: Result<usize, Refusal>,
}

/// Writes page 2 of probe, and behind a savepoint page 1 of trace and a third page of it, and commits.
pub fn transact(set: &mut Set<DelayedCard<'_>>) -> Answers {
    let t = set.begin(NONCE);
    let number = t.number();
    let calls = [
        ("write page 2 of probe", set.write(&t, 0, 2, &NEW)),
        ("savepoint", set.savepoint(&t).map(|_| ())),
        ("write page 1 of trace", set.write(&t, 2, 1, &NEW)),
        ("add page 3 to trace", set.write(&t, 2, 3, &NEW)),
        ("release savepoint 1", set.release(&t, 1)),
    ];
    let commit = set.commit(t);
    Answers {
        number,
        calls,
        commit,
    }
}

/// What a read of a page shows, as a letter: o if it is old, N if it is new, and ? else.
pub fn letter(set: &mut Set<DelayedCard<'_>>, database: usize, page: u32) -> Result<char, Refusal> {
    let mut bytes = [0u8; PAGE];
    set.read(database, page, &mut bytes)?;
    Ok(if bytes == OLD {
        'o'
    } else if bytes == NEW {
        'N'
    } else {
        '?'
    })
}

/// What a database shows: a letter for each page, - for one that is not read.
fn shown_one(
    heap: Global,
    set: &mut Set<DelayedCard<'_>>,
    database: usize,
) -> anyhow::Result<String> {
    let pages = set.size(database).unwrap_or(0);
    let marks = (1..=pages).map(|page| letter(set, database, page).unwrap_or('-'));
    Ok(marks.collect(heap)?)
}

/// What the three databases show.
pub fn shown(heap: Global, set: &mut Set<DelayedCard<'_>>) -> anyhow::Result<String> {
    let [probe, notes, trace] = [0, 1, 2].try_map(|database| shown_one(heap, set, database))?;
    Ok(format!(in heap; "{probe:<5}{notes:<5}{trace}")?)
}
