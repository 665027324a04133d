// What is done with the journals that were found.
ghost use Rattle.std.specs.Prelude.{ℕ, ◌<◌};
ghost use Rattle.steps.specs.Tasks.{Went};
ghost use Rattle.names.specs.Files.{how_many, file_of, super_file};
ghost use Rattle.survey.specs.Seen.{Seen, Stands, FoundOf};
ghost use Rattle.settling.specs.Examples.{Examples};
ghost use Rattle.settling.specs.Settled.{SeenOf, restore_tasks, all_tasks, super_tasks, settle_tasks};

use crate::playback::play;
use card::Card;
use journal::JOURNAL_LIMIT;
use names::{DATABASES, Names, SUPER_JOURNAL, journal_of};
use refusal::{SetFault, Step};
use set_files::{delete_file, length_of};
use survey::Found;

/// Plays a hot journal back, and deletes it; deletes a spent one.
fn restore<C: Card>(
    card: &mut C,
    names: &Names,
    d: usize,
    found: Found,
    buffer: &mut [u8; JOURNAL_LIMIT],
) -> Result<(), SetFault>
    requires few { d < 4 }
    requires seen { (s : Seen) × Stands (C.Card.meaning.holds card.old) (file_of names.now) d s × FoundOf s found }
    ensures { (s : Seen) → Stands (C.Card.meaning.holds card.old) (file_of names.now) d s → FoundOf s found → Went C.Card.meaning (restore_tasks (file_of names.now) d s) card.old result card.new }
{
    match found {
        Found::None => Ok(()),
        Found::Spent => delete_file(card, names, Step::R2, journal_of(d)),
        Found::Hot { .. } => play(card, names, d, buffer),
    }
}

/// Deletes the super-journal, if it is present.
// The small sets stand on this call, the last that settling makes. `using`: they are proved at each return
// alike, and so they have no proof file.
#[tactic(auto, using(crate::proofs::Cases::examples))]
fn delete_super<C: Card>(card: &mut C, names: &Names) -> Result<(), SetFault>
    ensures went { Went C.Card.meaning (super_tasks (file_of names.now) (C.Card.meaning.holds card.old (super_file names.now))) card.old result card.new }
    ensures examples { Examples }
{
    match length_of(card, names, Step::R3, SUPER_JOURNAL)? {
        None => Ok(()),
        Some(_) => delete_file(card, names, Step::R3, SUPER_JOURNAL),
    }
}

/// Restores each database by what was found of its journal.
// No `Few`, but four places cut at the number of databases: what was found goes whole into the report, which
// has four.
fn restore_all<C: Card>(
    card: &mut C,
    names: &Names,
    found: &[Found; DATABASES],
    buffer: &mut [u8; JOURNAL_LIMIT],
) -> Result<(), SetFault>
    requires { (seen : ℕ → Seen) × SeenOf C.Card.meaning names.now card.old found.now seen }
    ensures { (seen : ℕ → Seen) → SeenOf C.Card.meaning names.now card.old found.now seen → Went C.Card.meaning (all_tasks (file_of names.now) (how_many names.now) seen) card.old result card.new }
{
    for (d, found) in found[0..names.count()].iter().enumerate() {
        restore(card, names, d, *found, buffer)?;
    }
    Ok(())
}

/// Settles what was found: each hot journal is played back and deleted, each spent one deleted, and
/// the super-journal last. For the crates of this repository: it wants the journals to be as they were
/// found.
pub fn settle<C: Card>(
    card: &mut C,
    names: &Names,
    found: &[Found; DATABASES],
    buffer: &mut [u8; JOURNAL_LIMIT],
) -> Result<(), SetFault>
    requires { (seen : ℕ → Seen) × SeenOf C.Card.meaning names.now card.old found.now seen }
    ensures { (seen : ℕ → Seen) → SeenOf C.Card.meaning names.now card.old found.now seen → Went C.Card.meaning (settle_tasks (file_of names.now) (how_many names.now) seen (C.Card.meaning.holds card.old (super_file names.now))) card.old result card.new }
{
    restore_all(card, names, found, buffer)?;
    delete_super(card, names)
}
