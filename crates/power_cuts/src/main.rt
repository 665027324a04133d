// The program of the set: three databases on a delayed card, told call by call, with the power cut in a commit and
// again in the recovery after it.
#![tactic(auto)]

mod board;
mod real;
mod story;
mod words;

use anyhow::anyhow;
use real::{Change, print_cut};
use std::{env, fs};
use story::tell_set;

/// What the program can be asked.
const USAGE: &str = "power_cuts [cut CALL KEPT OLD NEW OLD NEW]";

/// The word of that number; empty if there is none.
// No Option: a word that is missing is told as one that is no number or no file, where it is read.
fn word(words: &[String], i: usize) -> &str {
    words.get(i).map_or("", |word| word.as_str())
}

/// Prints what a cut in the commit of two databases left, and the recovered files.
fn cut(rt: &HostRuntime, words: &[String]) -> anyhow::Result<()> {
    let call = word(words, 2).parse()?;
    let kept = word(words, 3).parse()?;
    let [old_a, new_a, old_b, new_b] = [4, 5, 6, 7].try_map(|i| fs::read(rt, word(words, i)))?;
    let a = Change {
        old: old_a,
        new: new_a,
    };
    let b = Change {
        old: old_b,
        new: new_b,
    };
    print_cut(rt, call, kept, &[a, b])
}

/// Does what the words ask for; without words it prints the report.
fn act(rt: &HostRuntime) -> anyhow::Result<()> {
    let words: Vec<String> = env::args(rt)?.collect(rt.alloc())?;
    match word(&words, 1) {
        "" => tell_set(rt),
        "cut" => cut(rt, &words),
        _ => Err(anyhow!("{}", USAGE)),
    }
}

fn main(rt: HostRuntime) -> anyhow::Result<()> {
    act(&rt)
}
