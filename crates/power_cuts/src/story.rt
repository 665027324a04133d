// A set of three databases on a delayed card, told call by call: without a cut, and with cuts in the
// commit and in the recovery; and what is left by a cut at each call of the commit.
use crate::board::{Answers, Cut, FILES, IMAGE, NAMES, letter, named, prepared, shown, transact};
use crate::words::{Committed, Journals, Place, Refused};
use card::Card;
use delayed_card::DelayedCard;
use halves::{CHOICES, Kept};
use refusal::Refusal;
use std::alloc::Global;
use std::fmt;
use store::Set;

/// The calls that the commit makes.
const CALLS: u32 = 24;

/// A row: what was asked, and what was answered.
fn row(rt: &HostRuntime, asked: &str, answer: impl fmt::Display + Drop) -> anyhow::Result<()> {
    println!(rt; "  {asked:<26}{answer}")?;
    Ok(())
}

/// A row of what a call told, or of its refusal.
fn answered<T: fmt::Display + Drop>(
    rt: &HostRuntime,
    asked: &str,
    answer: Result<T, Refusal>,
) -> anyhow::Result<()> {
    match answer {
        Ok(told) => row(rt, asked, told),
        Err(refusal) => row(rt, asked, Refused(refusal)),
    }
}

/// The rows of the transaction.
fn tell(rt: &HostRuntime, answers: Answers) -> anyhow::Result<()> {
    row(rt, "begin", format_args!("transaction {}", answers.number))?;
    for (asked, answer) in answers.calls {
        answered(rt, asked, answer.map(|()| "done"))?;
    }
    answered(rt, "commit", answers.commit.map(Committed))
}

/// A row of a recovery, with what was found of each journal.
fn recover(rt: &HostRuntime, set: &mut Set<DelayedCard<'_>>) -> anyhow::Result<()> {
    let found = set.recover().map(|recovery| Journals(recovery.found));
    answered(rt, "recover", found)
}

/// A row of what the databases show.
fn show(rt: &HostRuntime, set: &mut Set<DelayedCard<'_>>) -> anyhow::Result<()> {
    row(rt, "  the databases show", shown(rt.alloc(), set)?)
}

/// A row for the read of each page of a database, and of the page after its last.
fn read(
    rt: &HostRuntime,
    set: &mut Set<DelayedCard<'_>>,
    (database, name): (usize, &str),
) -> anyhow::Result<()> {
    let pages = set.size(database).unwrap_or(0);
    for page in 1..=pages.saturating_add(1) {
        let asked = format!(in rt.alloc(); "read page {page} of {name}")?;
        answered(rt, &asked, letter(set, database, page))?;
    }
    Ok(())
}

/// A row of the files on a card, with their lengths.
fn list(rt: &HostRuntime, card: &mut DelayedCard<'_>) -> anyhow::Result<()> {
    let mut files = Vec::new(rt.alloc());
    for (_, name) in FILES {
        if let Ok(Some(length)) = card.length(name.as_bytes()) {
            files.push(format!(in rt.alloc(); "{name} {length}")?)?;
        }
    }
    row(rt, "  the card holds", files.join(rt.alloc(), ", ")?)
}

/// A transaction with no cut.
fn tell_whole(rt: &HostRuntime) -> anyhow::Result<()> {
    let mut image = vec![in rt.alloc(); 0u8; IMAGE]?;
    let mut set = Set::new(named(&NAMES)?, prepared(&mut image)?);
    recover(rt, &mut set)?;
    show(rt, &mut set)?;
    tell(rt, transact(&mut set))?;
    show(rt, &mut set)?;
    [FILES[0], FILES[2]].try_map(|file| read(rt, &mut set, file))?;
    Ok(())
}

/// A transaction that is cut in its commit, a recovery that is cut, and one that is not.
fn tell_cut(rt: &HostRuntime, commit: Cut, recovery: Cut) -> anyhow::Result<()> {
    let mut image = vec![in rt.alloc(); 0u8; IMAGE]?;
    let mut card = prepared(&mut image)?;
    commit.after_recovery(3).tell(&mut card)?;
    let mut set = Set::new(named(&NAMES)?, card);
    recover(rt, &mut set)?;
    tell(rt, transact(&mut set))?;
    let mut card = set.into_card();
    card.power();
    list(rt, &mut card)?;
    recovery.tell(&mut card)?;
    let mut set = Set::new(named(&NAMES)?, card);
    recover(rt, &mut set)?;
    recover(rt, &mut set)?;
    show(rt, &mut set)
}

/// What a commit answered that was cut at a call, and what the databases show after a recovery.
fn outcome(heap: Global, cut: Cut) -> anyhow::Result<(String, String)> {
    let mut image = vec![in heap; 0u8; IMAGE]?;
    let mut card = prepared(&mut image)?;
    cut.after_recovery(3).tell(&mut card)?;
    let mut set = Set::new(named(&NAMES)?, card);
    let _ = set.recover();
    let answer = match transact(&mut set).commit {
        Ok(left) => Committed(left).to_string(heap)?,
        Err(Refusal::Card(fault)) => Place(fault).to_string(heap)?,
        Err(refusal) => Refused(refusal).to_string(heap)?,
    };
    let _ = set.recover();
    Ok((answer, shown(heap, &mut set)?))
}

/// A row for each call of the commit, with what a recovery makes of a cut there.
fn tell_each(rt: &HostRuntime) -> anyhow::Result<()> {
    println!(rt;
        "{:>4}  {:<26}{:<18}{:<18}{}",
        "call", "cut in", "kept synced", "kept all", "kept a mix"
    )?;
    // the calls of a commit have numbers alone
    for call in 1..=CALLS {
        let [(answer, synced), (_, all), (_, mix)] = CHOICES.try_map(|kept| outcome(
            rt.alloc(),
            Cut::new(call, kept),
        ))?;
        println!(rt; "{call:>4}  {answer:<26}{synced:<18}{all:<18}{mix}")?;
    }
    Ok(())
}

/// The set, told without a cut, with two cuts, and with a cut at each call of its commit.
pub fn tell_set(rt: &HostRuntime) -> anyhow::Result<()> {
    println!(rt;
        "A set on a delayed card: probe, notes and trace, with a letter for each page, o old, N new"
    )?;
    println!(rt; "\nNo cut")?;
    tell_whole(rt)?;
    println!(rt; "\nPower cut where the commit writes trace, and again in the recovery: all old")?;
    tell_cut(rt, Cut::new(20, Kept::Mixed), Cut::new(22, Kept::Mixed))?;
    println!(rt;
        "\nPower cut where the commit deletes the super-journal, and again in the recovery: all new"
    )?;
    tell_cut(rt, Cut::new(22, Kept::Current), Cut::new(12, Kept::Synced))?;
    println!(rt;
        "\nPower cut at each call of the commit: what probe, notes and trace show after a recovery\n"
    )?;
    tell_each(rt)
}
