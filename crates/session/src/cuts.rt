// A short task on a delayed card, cut at each of its calls in turn.
use crate::report::{holdings, words};
use anyhow::{Context, bail};
use card::{Card, CardFault};
use cards::{DelayedCard, TroubleLayer};
use halves::{CHOICES, Kept};
use std::alloc::Global;

/// The calls of the task, in their order.
// Apart from the task, which stops at the first call that is refused.
const CALLS: [&str; 7] = [
    "create notes",
    "write 'probe ready' into notes",
    "sync notes",
    "write 'PROBE' over it",
    "set the length of notes to 5",
    "create trace",
    "delete notes",
];

/// Two halves of 16 slots of 64 bytes.
const IMAGE: usize = 2048;

/// The origins of the card and of the layer over it.
const CARD: u8 = 7;

const LAYER: u8 = 9;

fn task<C: Card>(card: &mut C) -> Result<(), CardFault> {
    card.create(b"notes")?;
    card.write(b"notes", 0, b"probe ready")?;
    card.sync(b"notes")?;
    card.write(b"notes", 0, b"PROBE")?;
    card.set_length(b"notes", 5)?;
    card.create(b"trace")?;
    card.delete(b"notes")
}

/// What the card holds after the task lost power at a call, and power is on again.
fn remained(heap: Global, call: u32, kept: Kept) -> anyhow::Result<String> {
    let mut image = [0u8; IMAGE];
    let mut card = DelayedCard::new(&mut image, CARD);
    // what is kept goes to the card by its number, by a rule of the project (docs/CARD.md): as, since the
    // variants stand in the order of the numbers
    let told = card.lose_power_at(call, kept as u8);
    told.ok().context("no such cut")?;
    let _ = task(&mut card);
    card.power();
    holdings(heap, &mut card)
}

/// The answer that stopped the task, and what the card then holds, with a call refused by a layer.
fn troubled(heap: Global, call: u32) -> anyhow::Result<(String, String)> {
    let mut image = [0u8; IMAGE];
    let card = DelayedCard::new(&mut image, CARD);
    // no ok: the check does not cover a call that takes an answer with a card in its error
    let Ok(mut layer) = TroubleLayer::new(card, &[call], LAYER) else {
        bail!("too many troubles");
    };
    let answer = words(heap, task(&mut layer))?;
    Ok((answer, holdings(heap, &mut layer)?))
}

/// A row for each call at which power is cut, with what remained by what the card kept.
pub fn cut_each(rt: &HostRuntime) -> anyhow::Result<()> {
    println!(rt; "\nA delayed card, with the power cut at each call in turn: what remained\n")?;
    println!(rt;
        "{:>4}  {:<32}{:<32}{:<26}{}",
        "call", "cut in", "kept what was synced", "kept all", "kept a mix"
    )?;
    for (call, asked) in (1u32..).zip(CALLS) {
        let [synced, all, mix] = CHOICES.try_map(|kept| remained(rt.alloc(), call, kept))?;
        println!(rt; "{call:>4}  {asked:<32}{synced:<32}{all:<26}{mix}")?;
    }
    Ok(())
}

/// A row for each call that a trouble layer refuses.
pub fn trouble_each(rt: &HostRuntime) -> anyhow::Result<()> {
    println!(rt; "\nA trouble layer over a delayed card, with each call refused in turn\n")?;
    println!(rt;
        "{:>4}  {:<32}{:<34}{}",
        "call", "refused", "answered", "the card then holds"
    )?;
    for (call, asked) in (1u32..).zip(CALLS) {
        let (answer, holds) = troubled(rt.alloc(), call)?;
        println!(rt; "{call:>4}  {asked:<32}{answer:<34}{holds}")?;
    }
    Ok(())
}
