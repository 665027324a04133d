// Which databases and which pages a commit changes.
ghost use Rattle.std.specs.Prelude.{◌≡◌, ◌≤◌};
ghost use Rattle.pager.specs.Sound.{map_of};
ghost use Rattle.journaling.specs.Changes.{is_changed, recorded};
ghost use Rattle.journaling.specs.Examples.{Examples};

use few::Few;
use journal::RECORD_LIMIT;
use pager::Memory;

/// The most records of a journal: page 1 and as many pages as can be changed.
pub const RECORDS: usize = RECORD_LIMIT as usize;

/// Whether a database has a changed page.
// The examples of the plan stand on this contract, since the check proves its other clause by itself.
#[tactic(auto, using(pager::proofs::Members::none_changed))]
pub fn is_changed(memory: &Memory, database: usize) -> bool
    ensures is { result ≡ is_changed (map_of memory.now.maps) database }
    ensures examples { Examples }
{
    memory.changed_count(database).is_ok_and(|n| n >= 1)
}

/// The pages that the journal of a database records, in the order of its records: page 1, and the changed
/// pages within its size.
// The size, from 1 to 4,096, is a number here, as the table of sizes gives it and a journal's header tells it.
pub fn recorded_pages(memory: &Memory, database: usize, size: u32) -> Few<u32, RECORDS>
    requires some { 1 ≤ size }
    requires small { size ≤ 4096 }
    ensures { result.items ≡ recorded (map_of memory.now.maps database) size }
{
    let mut pages = Few::new();
    pages.push(1);
    for page in memory
        .changed_pages(database)
        .filter(|page| (2..=size).contains(page))
    {
        pages.push(page);
    }
    pages
}
