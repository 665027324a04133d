// Two databases from files, changed together on a delayed card that loses power in the commit: the
// files that it left, and the databases after a recovery.
use crate::board::{Cut, NONCE, ORIGIN, named, put};
use anyhow::Context;
use card::Card;
use delayed_card::DelayedCard;
use halves::Kept;
use journal::PAGE;
use refusal::Refusal;
use store::{Set, Transaction};

/// Two halves of 16 slots of 32,768 bytes.
const IMAGE: usize = 1_048_576;

/// The most bytes of a file on the card.
const FILE: usize = 32_768;

/// The names of the databases.
const NAMES: [&[u8]; 2] = [b"a", b"b"];

/// The names of the files.
const FILES: [&str; 5] = ["a", "b", "a-journal", "b-journal", "a-mj"];

/// A database as it is, and as it is to be.
#[derive(Drop)]
pub struct Change {
    pub old: Vec<u8>,
    pub new: Vec<u8>,
}

/// Writes the pages that differ.
fn write_new(
    set: &mut Set<DelayedCard<'_>>,
    t: &Transaction,
    database: usize,
    change: &Change,
) -> Result<(), Refusal> {
    // nth: with a second iterator stepped in the loop, that its next may be called stayed unproved; the
    // databases have few pages. as, since no From goes from u32 to usize
    for (index, new) in (0u32..).zip(change.new.chunks_exact(PAGE)) {
        let old = change.old.chunks_exact(PAGE).nth(index as usize);
        if old != Some(new) {
            set.write(t, database, index.saturating_add(1), new)?;
        }
    }
    Ok(())
}

/// Changes both databases in one transaction.
fn transact(set: &mut Set<DelayedCard<'_>>, changes: &[Change; 2]) -> Result<usize, Refusal> {
    let t = set.begin(NONCE);
    let [first, second] = changes;
    let written = write_new(set, &t, 0, first).and_then(|()| write_new(set, &t, 1, second));
    match written {
        Ok(()) => set.commit(t),
        Err(refusal) => {
            let _ = set.rollback(t);
            Err(refusal)
        }
    }
}

/// Prints each file of a card: a line with a word and its name, and then its bytes as hex, 32 to a line.
fn print_files(rt: &HostRuntime, word: &str, card: &mut DelayedCard<'_>) -> anyhow::Result<()> {
    let mut buffer = vec![in rt.alloc(); 0u8; FILE]?;
    for name in FILES {
        if let Ok(Some(length)) = card.length(name.as_bytes()) {
            // as, since no From goes from u32 to usize
            let end = (length as usize).min(buffer.len());
            let answer = card.read(name.as_bytes(), 0, &mut buffer[0..end]);
            answer.ok().context("a file is not read")?;
            println!(rt; "{word} {name}")?;
            // written in both programs, since it asks for heap, and a library has none
            for line in buffer[0..end].chunks(32) {
                println!(rt; "{}", hex::encode(rt.alloc(), line)?)?;
            }
        }
    }
    Ok(())
}

/// Prints what a cut at a call of the commit left, and what a recovery makes of it. The first line
/// tells whether power was lost. A database that is too long is told before a number that no choice of
/// what is kept has.
pub fn print_cut(
    rt: &HostRuntime,
    call: u32,
    kept: u8,
    changes: &[Change; 2],
) -> anyhow::Result<()> {
    let mut image = vec![in rt.alloc(); 0u8; IMAGE]?;
    let mut card = DelayedCard::new(&mut image, ORIGIN);
    for (name, change) in NAMES.iter().zip(changes) {
        let answer = put(&mut card, name, &change.old);
        answer.ok().context("a database is too long")?;
    }
    let kept = Kept::try_from(kept).ok().context("no such cut")?;
    Cut::new(call, kept).after_recovery(2).tell(&mut card)?;
    let mut set = Set::new(named(&NAMES)?, card);
    let _ = set.recover();
    let _ = transact(&mut set, changes);
    let mut card = set.into_card();
    let power = if card.powered() { "on" } else { "lost" };
    println!(rt; "power {power}")?;
    card.power();
    print_files(rt, "left", &mut card)?;
    let mut set = Set::new(named(&NAMES)?, card);
    set.recover().ok().context("the recovery is refused")?;
    print_files(rt, "recovered", &mut set.into_card())
}
