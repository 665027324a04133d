// The lengths of the databases.
ghost use Rattle.std.specs.Prelude.{◌≡◌, ℕ, MatchOption};
ghost use Rattle.steps.specs.Tasks.{Went};
ghost use Rattle.names.specs.Files.{how_many, file_of};
ghost use Rattle.set_files.specs.Looked.{Told, dropped, never, never₂};
ghost use Rattle.recovery.specs.Measured.{Pages, HasPages, NoPages, Measured, length_tasks, measure_tasks};

use card::Card;
use journal::PAGE;
use names::{DATABASES, Names};
use page_map::is_page;
use refusal::{Refusal, Step};
use set_files::length_of;

/// How many pages a file of so many bytes has; none if they are not 1 to 4,096 whole pages.
fn pages_of(bytes: u32) -> Option<u32>
    ensures { MatchOption result ((p : ℕ) → Pages bytes p → ⊥) (Pages bytes) }
{
    let page = PAGE as u32;
    let pages = bytes / page;
    (bytes % page == 0 && is_page(pages)).then_some(pages)
}

/// How many pages a database has.
fn measure_one<C: Card>(card: &mut C, names: &Names, d: usize) -> Result<u32, Refusal>
    ensures went { Went C.Card.meaning (length_tasks (file_of names.now) d) card.old (dropped result) card.new }
    ensures told { Told result (HasPages (C.Card.meaning.holds card.old (file_of names.now d))) never₂ never (λ i. (i ≡ d) × NoPages (C.Card.meaning.holds card.old (file_of names.now d))) }
{
    let length = length_of(card, names, Step::R4, d)?;
    length.and_then(pages_of).ok_or(Refusal::Database(d))
}

/// How many pages each database has; 1 for one that the set has not.
// No Option in the array: the memory and the stored sizes take four numbers within their limits.
pub(crate) fn measure<C: Card>(card: &mut C, names: &Names) -> Result<[u32; DATABASES], Refusal>
    ensures went { Went C.Card.meaning (measure_tasks (file_of names.now) (how_many names.now) result) card.old (dropped result) card.new }
    ensures told { Measured (C.Card.meaning.holds card.old) (file_of names.now) (how_many names.now) result }
{
    let mut sizes = [1u32; DATABASES];
    let kept = &mut sizes[0..names.count()];
    for (d, size) in kept.iter_mut().enumerate() {
        *size = measure_one(card, names, d)?;
    }
    Ok(sizes)
}
