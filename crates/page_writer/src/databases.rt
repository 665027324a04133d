// The changed pages of one database, written to its file.
ghost use Rattle.std.specs.Prelude.{◌≡◌, ℕ, List, [], ◌∷◌, ◌++◌};
ghost use Rattle.card.specs.Calls.Op.{sync as syncs};
ghost use Rattle.names.specs.Files.{file_of};
ghost use Rattle.pager.specs.View.{view};
ghost use Rattle.refusal.specs.declared.step.Step.TheVariants.{C3};
ghost use Rattle.steps.specs.Tasks.{Went};
ghost use Rattle.journaling.specs.Plan.{write_tasks, call};
ghost use Rattle.journaling.specs.Changes.{pages_held};

use card::Card;
use names::Names;
use page_map::page_place;
use pager::Memory;
use refusal::{SetFault, Step};
use steps::Site;

/// Writes the changed pages of a database in ascending order, and makes them safe.
pub fn write_pages<C: Card>(
    card: &mut C,
    names: &Names,
    memory: &Memory,
    database: usize,
) -> Result<(), SetFault>
    ensures { (stored : ℕ → List ℕ) → Went C.Card.meaning (write_tasks (file_of names.now database) database (pages_held (view stored memory.now) database) ++ (call (file_of names.now) C3 database syncs ∷ [])) card.old result card.new }
{
    let file = names.file(database);
    let site = Site::new(Step::C3, database);
    for page in memory.changed_pages(database) {
        let bytes = memory.get(database, page).unwrap();
        site.write(card, file.bytes(), page_place(page), bytes)?;
    }
    site.sync(card, file.bytes())
}
