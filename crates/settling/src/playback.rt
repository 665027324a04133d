// Journals played back into their databases, and deleted.
//
// A database goes by its number, as in the calls and in the faults. That it is below four is what
// `journal_of` wants; a type for such numbers would be taken apart again at each site and each name.
ghost use Rattle.std.specs.Prelude.{◌≡◌, ◌+◌, ◌<◌, ◌≤◌, [], ◌∷◌, length as count_of, IfOk, Some};
ghost use Rattle.card.specs.Calls.{overwrite};
ghost use Rattle.refusal.specs.declared.step.Step.TheVariants.{R2};
ghost use Rattle.journal.specs.Format.{Journal, full};
ghost use Rattle.journal.specs.Judged.{Parts};
ghost use Rattle.journal.specs.OnCard.{judge_acts};
ghost use Rattle.journal.specs.Read.{Of};
ghost use Rattle.steps.specs.Tasks.{Went, tasks, at};
ghost use Rattle.names.specs.Files.{file_of, journal_file};
ghost use Rattle.settling.specs.Settled.{WholeOf, record_task, write_tasks, finish_tasks, hot_tasks};

use card::Card;
use journal::{JOURNAL_LIMIT, PAGE, Sound, Verdict};
use names::{Names, journal_of};
use page_map::page_place;
use refusal::{SetFault, Step};
use set_files::{delete_file, journal_in, judge_numbered};
use steps::Site;

/// Writes the page of the record of an index, from 0, back into its database.
// Bytes and parts side by side: the contracts speak of the journal that both are of, and a struct of the
// two could know only that there is one, since a ghost field is a fact and no value.
fn write_record<C: Card>(
    card: &mut C,
    names: &Names,
    d: usize,
    bytes: &[u8],
    sound: &Sound,
    index: u32,
) -> Result<(), SetFault>
    requires { (j : Journal) × Of bytes.now sound.now j × (index < count_of j.records) }
    ensures { (j : Journal) → Of bytes.now sound.now j → Went C.Card.meaning (record_task (file_of names.now) d j index ∷ []) card.old result card.new }
{
    let number = sound.page_number(bytes, index).unwrap();
    let page = sound.page(bytes, index).unwrap();
    Site::of_record(Step::R2, d, index + 1).write(
        card,
        names.file(d).bytes(),
        page_place(number),
        page,
    )
}

/// Writes the pages of all records of a journal back into its database.
// By index: the journal's lookups take it and a fault tells it, so an iterator over records would be
// counted again.
fn write_records<C: Card>(
    card: &mut C,
    names: &Names,
    d: usize,
    bytes: &[u8],
    sound: &Sound,
) -> Result<(), SetFault>
    requires { (j : Journal) × Of bytes.now sound.now j }
    ensures { (j : Journal) → Of bytes.now sound.now j → Went C.Card.meaning (write_tasks (file_of names.now) d j) card.old result card.new }
{
    for index in 0..sound.count {
        write_record(card, names, d, bytes, sound, index)?;
    }
    Ok(())
}

/// Gives a database its first size, makes it safe, and deletes its journal.
// A size up to 4,096 is asked for by a clause and no type: a sound journal's parts tell it as a number.
fn finish<C: Card>(card: &mut C, names: &Names, d: usize, size: u32) -> Result<(), SetFault>
    requires few { d < 4 }
    requires small { size ≤ 4096 }
    ensures { Went C.Card.meaning (finish_tasks (file_of names.now) d size) card.old result card.new }
{
    let name = names.file(d);
    let site = Site::new(Step::R2, d);
    site.set_length(card, name.bytes(), size * PAGE as u32)?;
    site.sync(card, name.bytes())?;
    delete_file(card, names, Step::R2, journal_of(d))
}

/// Reads a hot journal again, whole, and tells its parts.
fn reread<C: Card>(
    card: &mut C,
    names: &Names,
    d: usize,
    buffer: &mut [u8; JOURNAL_LIMIT],
) -> Result<Sound, SetFault>
    requires few { d < 4 }
    requires hot { (j : Journal) × WholeOf C.Card.meaning names.now card.old d j }
    ensures went { (j : Journal) → WholeOf C.Card.meaning names.now card.old d j → Went C.Card.meaning (tasks (at R2 (4 + d)) (judge_acts (journal_file names.now d) (Some (full j)))) card.old result card.new }
    ensures told { IfOk result (λ s. (j : Journal) → WholeOf C.Card.meaning names.now card.old d j → Parts s j × (buffer.new ≡ overwrite buffer.old 0 (full j))) }
{
    let verdict = judge_numbered(card, names, Step::R2, journal_of(d), buffer)?.unwrap();
    let Verdict::Sound(sound) = verdict else {
        unreachable()
    };
    Ok(sound)
}

/// Plays a hot journal back into its database, and deletes it.
pub(crate) fn play<C: Card>(
    card: &mut C,
    names: &Names,
    d: usize,
    buffer: &mut [u8; JOURNAL_LIMIT],
) -> Result<(), SetFault>
    requires few { d < 4 }
    requires hot { (j : Journal) × WholeOf C.Card.meaning names.now card.old d j }
    ensures { (j : Journal) → WholeOf C.Card.meaning names.now card.old d j → Went C.Card.meaning (hot_tasks (file_of names.now) d j) card.old result card.new }
{
    let sound = reread(card, names, d, buffer)?;
    write_records(card, names, d, journal_in(buffer, &sound), &sound)?;
    finish(card, names, d, sound.size)
}
