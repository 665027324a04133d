// The store of saved pages: 32 in all, for all savepoints together.
ghost use Rattle.std.specs.Prelude.{◌≡◌, ◌+◌, ◌≤◌, not, ◌&&◌, [], length, ◌==◌, nat_le};
ghost use Rattle.pager.specs.Saved.{has, passed as passed_down, added, gathered, WholeRows};

use crate::saved_page::SavedPage;
use few::Few;

/// The most pages that are saved at one time, by all savepoints.
pub const SAVED_LIMIT: usize = 32;

/// The row once savepoint s and all above are removed: it belongs to the one below.
fn passed(row: &SavedPage, s: usize) -> SavedPage
    requires { 1 ≤ s }
    ensures { result ≡ passed_down s row.now }
{
    SavedPage {
        level: row.level.min(s - 1),
        ..*row
    }
}

/// The saved pages of all savepoints, in the order in which they were saved.
// no model, as for the changed pages
#[derive(Clone, Copy)]
pub struct SavedPages {
    rows: Few<SavedPage, SAVED_LIMIT>,
    // the list's own bound, which a clause on its items does not show: without it the room for a row in
    // `Memory::write` was not proved (tried)
    ghost few: { length rows.items ≤ 32 },
    // what the type of a row says of its bytes, which rows of a list no longer show
    ghost whole: { WholeRows rows.items },
}

impl SavedPages {
    /// A store with no page.
    pub fn new() -> SavedPages
        ensures { result.rows.items ≡ [] }
    {
        SavedPages { rows: Few::new() }
    }

    /// Whether the savepoint has saved the page.
    #[tactic(auto, unfolding(crate::specs::Saved::has))]
    fn has(&self, level: usize, database: usize, page: u32) -> bool
        ensures { result ≡ has level self.now.rows.items database page }
    {
        self.rows.as_slice().iter().any(|row| row.level == level
            && row.database == database
            && row.page == page)
    }

    /// How many pages are saved.
    pub fn count(&self) -> usize
        ensures { result ≡ length self.now.rows.items }
    {
        self.rows.len()
    }

    /// Whether the store is full.
    pub fn is_full(&self) -> bool
        ensures { result ≡ (length self.now.rows.items == 32) }
    {
        self.rows.is_full()
    }

    /// Whether the savepoint has yet to save the page; savepoint 0 is none, and saves nothing.
    pub fn lacks(&self, level: usize, database: usize, page: u32) -> bool
        ensures { result ≡ (nat_le 1 level && not (has level self.now.rows.items database page)) }
    {
        level > 0 && !self.has(level, database, page)
    }

    /// Adds a page, unless its savepoint has it already; with no savepoint it is dropped.
    pub fn add_once(&mut self, row: SavedPage)
        requires { length (added self.old.rows.items row) ≤ 32 }
        ensures rows { self.new.rows.items ≡ added self.old.rows.items row }
        ensures used { length self.new.rows.items ≤ length self.old.rows.items + 1 }
    {
        if self.lacks(row.level, row.database, row.page) {
            self.rows.push(row);
        }
    }

    /// The store once savepoint s and all above are removed: their pages pass to the one below,
    /// each once, or are dropped.
    // made anew, not in place: a row may change and another go, and `Few` has no `retain`
    pub fn passed_down(&self, s: usize) -> SavedPages
        requires { 1 ≤ s }
        ensures { result.rows.items ≡ gathered s [] self.now.rows.items }
    {
        let mut out = SavedPages::new();
        for row in self.rows.as_slice() {
            out.add_once(passed(row, s));
        }
        out
    }
}
