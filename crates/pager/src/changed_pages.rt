// The store of changed pages: 32 in all, for all databases together.
ghost use Rattle.std.specs.Prelude.{◌≡◌, ℕ, ◌+◌, ◌<◌, ◌≤◌, false, cond, ◌&&◌, [], length, is_some, if◌then◌else◌, Some, position, ◌==◌, nat_eq};
ghost use Rattle.std.specs.Option.{option_map};
ghost use Rattle.pager.specs.Changed.{is_row, look, Whole};

use crate::changed_page::ChangedPage;
use few::Few;
use page_map::PAGE;

/// The most pages that are changed at one time, in all databases.
pub const CHANGED_LIMIT: usize = 32;

/// The changed pages of all databases, each once.
// no model: `fields` of View gives the stores as lists already, and a model would save a word in a clause, no fact
#[derive(Clone, Copy)]
pub struct ChangedPages {
    rows: Few<ChangedPage, CHANGED_LIMIT>,
    // the list's own bound: a clause sees its items alone, and what a commit has room for rests on this
    ghost few: { length rows.items ≤ 32 },
    // what the type of a row says of its bytes, which rows of a list no longer show
    ghost whole: { Whole rows.items },
}

impl ChangedPages {
    /// A store with no page.
    pub fn new() -> ChangedPages
        ensures { result.rows.items ≡ [] }
    {
        ChangedPages { rows: Few::new() }
    }

    /// Where the page stands.
    fn find(&self, database: usize, page: u32) -> Option<usize>
        ensures { result ≡ position (is_row database page) self.now.rows.items }
    {
        self.rows
            .as_slice()
            .iter()
            .position(|row| row.database == database && row.page == page)
    }

    /// What the page holds, if it is changed.
    pub fn get(&self, database: usize, page: u32) -> Option<&[u8; PAGE]>
        ensures { option_map (λ x. x.now) result ≡ look self.now.rows.items database page }
    {
        let row = &self.rows.as_slice()[self.find(database, page)?];
        Some(&row.bytes)
    }

    /// Whether the store is full.
    pub fn is_full(&self) -> bool
        ensures { result ≡ (length self.now.rows.items == 32) }
    {
        self.rows.is_full()
    }

    /// Puts the page in, or in the place of what it held.
    pub fn put(&mut self, database: usize, page: u32, bytes: [u8; PAGE])
        requires { is_some (look self.old.rows.items database page) ≡ false → length self.old.rows.items < 32 }
        ensures look { (d p : ℕ) → look self.new.rows.items d p ≡ (if nat_eq d database && p == page then Some bytes else look self.old.rows.items d p) }
        ensures used { length self.new.rows.items ≡ cond (is_some (look self.old.rows.items database page)) (length self.old.rows.items) (length self.old.rows.items + 1) }
    {
        let row = ChangedPage {
            database,
            page,
            bytes,
        };
        match self.find(database, page) {
            Some(i) => self.rows.set(i, row),
            None => self.rows.push(row),
        }
    }
}
