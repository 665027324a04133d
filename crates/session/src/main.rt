// The program of the parts: a file task on a direct card, told call by call, and a short one on a delayed
// card, cut or refused at each of its calls in turn; journals, judged; a transaction in memory, step by
// step; and writes at the edges of a database, compared with a table.
#![tactic(auto)]

mod cuts;
mod edges;
mod filled;
mod journals;
mod pages;
mod report;

use anyhow::anyhow;
use card::Card;
use cards::DirectCard;
use cuts::{cut_each, trouble_each};
use edges::compare_each;
use filled::print_journal;
use journals::judge_each;
use pages::change_pages;
use report::Report;
use std::{env, fs};

/// A card of 16 slots of 64 bytes: 27 bytes for each file.
const IMAGE: usize = 1024;

/// The origin that the card's faults carry.
const ORIGIN: u8 = 7;

/// Keeps notes and a trace on the card, with one write that the card must refuse.
fn keep_notes<C: Card>(report: &mut Report<'_>, card: &mut C) -> anyhow::Result<()> {
    report.row("length of notes", card.length(b"notes"), card)?;
    report.row("create notes", card.create(b"notes"), card)?;
    let answer = card.write(b"notes", 0, b"probe ready");
    report.row("write 11 bytes into notes at 0", answer, card)?;
    report.row("sync notes", card.sync(b"notes"), card)?;
    let mut text = [0u8; 5];
    let answer = card.read(b"notes", 6, &mut text).map(|()| text);
    report.row("read 5 bytes of notes at 6", answer, card)?;
    let answer = card.write(b"notes", 20, b"late");
    report.row("write 4 bytes into notes at 20", answer, card)
}

/// Cuts and fills the notes, and replaces them by a trace.
fn keep_trace<C: Card>(report: &mut Report<'_>, card: &mut C) -> anyhow::Result<()> {
    let answer = card.set_length(b"notes", 5);
    report.row("set the length of notes to 5", answer, card)?;
    let answer = card.set_length(b"notes", 8);
    report.row("set the length of notes to 8", answer, card)?;
    report.row("create trace", card.create(b"trace"), card)?;
    let answer = card.write(b"trace", 0, b"break at main");
    report.row("write 13 bytes into trace at 0", answer, card)?;
    report.row("sync trace", card.sync(b"trace"), card)?;
    report.row("delete notes", card.delete(b"notes"), card)
}

fn run(rt: &HostRuntime) -> anyhow::Result<()> {
    let mut image = [0u8; IMAGE];
    let mut card = DirectCard::new(&mut image, ORIGIN);
    let mut report = Report::begin(rt, "A direct card: 16 slots, 27 bytes for each file")?;
    keep_notes(&mut report, &mut card)?;
    keep_trace(&mut report, &mut card)?;
    report.end()?;
    cut_each(rt)?;
    trouble_each(rt)?;
    judge_each(rt)?;
    change_pages(rt)?;
    compare_each(rt)
}

/// Does what the words ask for: nothing is the report, and `journal DATABASE [SUPER]` prints a journal
/// of the file's pages as hex.
fn act(rt: &HostRuntime) -> anyhow::Result<()> {
    let mut words = env::args(rt)?.skip(1);
    let Some(word) = words.next() else {
        return run(rt);
    };
    match words.next() {
        Some(path) if word.as_str() == "journal" => {
            let pages = fs::read(rt, path.as_str())?;
            let name = words.next();
            print_journal(rt, &pages, name.as_ref().map(|name| name.as_bytes()))
        }
        _ => Err(anyhow!("journal DATABASE [SUPER]")),
    }
}

fn main(rt: HostRuntime) -> anyhow::Result<()> {
    act(&rt)
}
