// The originals of the pages that a journal records, read right into the places of their records.
ghost use Rattle.std.specs.Prelude.{◌≡◌, ℕ, ◌+◌, ◌*◌, ◌<◌, ◌≤◌, [], ◌∷◌, map, length as count_of};
ghost use Rattle.card.specs.Calls.Op.{read as reads};
ghost use Rattle.journal_writer.specs.Written.{originals};
ghost use Rattle.refusal.specs.declared.step.Step.TheVariants.{C2};
ghost use Rattle.steps.specs.Tasks.{Went, task, at_record};
ghost use Rattle.journaling.specs.Plan.{place as place_of, original, read_tasks};
ghost use Rattle.journaling.specs.Changes.{contents};
ghost use Rattle.journaling.specs.Buffers.{Copied, RecordedIn, PagesOk};

use card::Card;
use journal::{JOURNAL_LIMIT, PAGE, record_place};
use page_map::page_place;
use refusal::{SetFault, Step};
use steps::Site;

/// Reads a page of a database into the place of the record of that index, from 0.
// The page, from 1 to 4,096, is a number here as in the memory's list and in a record; a type for it would be undone
// at each. Six parameters: one call makes this one, inside a loop, and a struct would be made for that call alone.
fn read_original<C: Card>(
    card: &mut C,
    name: &[u8],
    database: usize,
    page: u32,
    index: u32,
    buffer: &mut [u8; JOURNAL_LIMIT],
) -> Result<(), SetFault>
    requires index { index < 33 }
    requires first { 1 ≤ page }
    requires last { page ≤ 4096 }
    ensures went { Went C.Card.meaning (task (at_record C2 database (index + 1)) name.now (reads (place_of page) 512) ∷ []) card.old result card.new }
    ensures copied { Copied (contents (C.Card.meaning.holds card.old name.now)) page index buffer.old result buffer.new }
{
    let start = record_place(index) + 4;
    let site = Site::of_record(Step::C2, database, index + 1);
    site.read(
        card,
        name,
        page_place(page),
        &mut buffer[start..start + PAGE],
    )
}

/// Reads the originals of the pages into the places of their records.
// Five parameters: a file's name and its number go apart, since the card calls it by name and a fault tells its number.
pub fn read_originals<C: Card>(
    card: &mut C,
    name: &[u8],
    database: usize,
    pages: &[u32],
    buffer: &mut [u8; JOURNAL_LIMIT],
) -> Result<(), SetFault>
    requires few { count_of pages.now ≤ 33 }
    requires pages { PagesOk pages.now }
    ensures went { Went C.Card.meaning (read_tasks name.now database 1 pages.now) card.old result card.new }
    ensures read { RecordedIn (contents (C.Card.meaning.holds card.old name.now)) pages.now result buffer.new }
{
    for (index, page) in pages.iter().enumerate() {
        read_original(card, name, database, *page, index as u32, buffer)?;
    }
    Ok(())
}
