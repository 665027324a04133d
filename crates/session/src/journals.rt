// A journal, judged as it is written and as it is damaged.
use crate::filled::fill;
use anyhow::Context;
use journal::{PAGE, Sound, Verdict, judge};
use journal_writer::put_count;
use std::fmt;
use std::ops::Range;

/// The super-journal that the judged journal names.
const SUPER: &[u8] = b"a-mj";

/// A header, the record of one page, and the super-journal record of the name.
const LENGTH: usize = 1056;

/// The parts of the journal, each with the places of its bytes.
const PARTS: [(&str, Range<usize>); 9] = [
    ("magic", 0..8),
    ("count", 8..12),
    ("nonce", 12..16),
    ("three sizes", 16..28),
    ("padding", 28..512),
    ("page number", 512..516),
    ("page", 516..1028),
    ("checksum", 1028..1032),
    ("super-journal record", 1032..LENGTH),
];

/// A verdict, told in words.
#[derive(Clone, Copy)]
struct Judged(Verdict);

impl fmt::Display for Judged {
    fn fmt<W: fmt::Write>(&self, f: &mut fmt::Formatter<W>) -> fmt::Result {
        match self.0 {
            Verdict::Spent => f.write_str("spent"),
            Verdict::Damaged { record } => write!(f, "damaged, record {record}"),
            Verdict::Sound(sound) => {
                let Sound {
                    count,
                    nonce,
                    size,
                    ..
                } = sound;
                write!(f, "sound: records {count}, nonce {nonce}, pages {size}")
            }
        }
    }
}

/// The verdicts on a journal with other counts, and cut short.
fn judge_counts(rt: &HostRuntime, bytes: &mut [u8; LENGTH]) -> anyhow::Result<()> {
    println!(rt; "\nA journal of one zero page, nonce 7, that names a-mj: {LENGTH} bytes\n")?;
    for count in [0, 2, 1] {
        put_count(bytes, count).ok().context("a count of records")?;
        println!(rt; "count {count:<26}{}", Judged(judge(bytes)))?;
    }
    for cut in [1055, 1053, 1032, 1031, 511] {
        println!(rt; "cut to {cut:<25}{}", Judged(judge(&bytes[0..cut])))?;
    }
    Ok(())
}

/// The verdict with one byte flipped.
fn flipped(journal: &[u8; LENGTH], place: usize) -> Verdict {
    let mut bytes = *journal;
    if let Some(byte) = bytes.get_mut(place) {
        *byte ^= 0xff;
    }
    judge(&bytes)
}

/// How often each verdict is given with each byte of a part flipped in turn.
fn judge_parts(rt: &HostRuntime, journal: &[u8; LENGTH]) -> anyhow::Result<()> {
    println!(rt;
        "\n{:<32}{:>6}{:>12}{:>12}{:>7}",
        "one byte flipped, in the", "spent", "damaged, 0", "damaged, 1", "sound"
    )?;
    for (name, places) in PARTS {
        let verdicts: Vec<Verdict> = places
            .map(|place| flipped(journal, place))
            .collect(rt.alloc())?;
        let given = |verdict: Verdict| verdicts.iter().filter(|v| **v == verdict).count();
        let spent = given(Verdict::Spent);
        let [other, first] = [0, 1].map(|record| given(Verdict::Damaged { record }));
        let sound = verdicts
            .iter()
            .filter(|v| matches!(v, Verdict::Sound(_)))
            .count();
        println!(rt; "{name:<32}{spent:>6}{other:>12}{first:>12}{sound:>7}")?;
    }
    Ok(())
}

/// One journal, with another count, cut short, and with one byte flipped in turn.
pub fn judge_each(rt: &HostRuntime) -> anyhow::Result<()> {
    let mut bytes = [0u8; LENGTH];
    fill(&mut bytes, &[0u8; PAGE], Some(SUPER))?;
    judge_counts(rt, &mut bytes)?;
    judge_parts(rt, &bytes)
}
