// Writing a page.
ghost use Rattle.std.specs.Prelude.{◌≡◌, ◌+◌, ◌<◌, cond, not, ◌&&◌, length as count_of, IfOk, Some, None, Ok, Err, ◌==◌, nat_le, slice_index};
ghost use Rattle.pager.specs.Changed.{look};
ghost use Rattle.pager.specs.Machine.{written};
ghost use Rattle.page_map.specs.Sets.{total};
ghost use Rattle.pager.specs.Sound.{map_of};
ghost use Rattle.pager.specs.View.{fields, page_allowed, to_save, write_refusal, was_of, saved_first, KeptIfRefused, Takes};
ghost use Rattle.refusal.specs.Results.{refused};

use crate::memory::Memory;
use crate::saved_page::{SavedPage, Was};
use page_map::{PAGE, is_page};
use refusal::Refusal;

impl Memory {
    // Three tests want a database of the four, as the arrays do: a total look-up would need an answer for
    // one that is not there, which the words of the contract do not give.

    /// Whether the page is one of the database's, or the next one.
    fn is_allowed(&self, database: usize, page: u32) -> bool
        requires { database < 4 }
        ensures { result ≡ page_allowed self.now database page }
    {
        is_page(page) && page - 1 <= self.sizes[database]
    }

    /// Whether 32 pages are changed, and this one is not among them.
    fn lacks_changed_room(&self, database: usize, page: u32) -> bool
        requires { database < 4 }
        ensures { result ≡ (total (map_of self.now.maps) 4 == 32 && not (map_of self.now.maps database page)) }
    {
        self.changed.is_full() && !self.maps[database].contains(page)
    }

    /// Whether 32 pages are saved, and one more is needed.
    fn lacks_saved_room(&self, database: usize, page: u32) -> bool
        ensures { result ≡ (count_of self.now.saved.rows.items == 32 && to_save self.now database page) }
    {
        self.saved.is_full() && self.saved.lacks(self.levels.len(), database, page)
    }

    /// What the page is now.
    fn was(&self, database: usize, page: u32) -> Was
        requires { database < 4 }
        ensures { result ≡ was_of (look (fields self.now).changed database page) (nat_le page (slice_index self.now.sizes database)) }
    {
        match self.changed.get(database, page) {
            Some(bytes) => Was::Changed(*bytes),
            None if page <= self.sizes[database] => Was::Unchanged,
            None => Was::Absent,
        }
    }

    /// The bytes of the page, if the write is not refused.
    fn admit(&self, database: usize, page: u32, bytes: &[u8]) -> Result<[u8; PAGE], Refusal>
        ensures refusal { refused result ≡ write_refusal self.now database page (count_of bytes.now) }
        ensures whole { IfOk result (λ row. row ≡ bytes.now) }
    {
        self.known(database)?;
        let Ok(row) = <[u8; PAGE]>::try_from(bytes) else {
            return Err(Refusal::BufferLength);
        };
        if !self.is_allowed(database, page) {
            return Err(Refusal::Page);
        }
        if self.lacks_changed_room(database, page) {
            return Err(Refusal::ChangedFull);
        }
        if self.lacks_saved_room(database, page) {
            return Err(Refusal::SavedFull);
        }
        Ok(row)
    }

    /// Writes a page of a database: replaces it, or adds the one after its last. The top savepoint
    /// saves the page first, unless it has it already. A refusal changes nothing.
    pub fn write(&mut self, database: usize, page: u32, bytes: &[u8]) -> Result<(), Refusal>
        ensures refusal { refused result ≡ write_refusal self.old database page (count_of bytes.now) }
        ensures kept { KeptIfRefused result self.old self.new }
        ensures count { self.new.count ≡ self.old.count }
        ensures done { Takes result self.old self.new (written database page bytes.now) }
        ensures used { refused result ≡ None → count_of self.new.changed.rows.items ≡ cond (map_of self.old.maps database page) (count_of self.old.changed.rows.items) (count_of self.old.changed.rows.items + 1) }
        ensures saved { refused result ≡ None → (fields self.new).saved ≡ saved_first self.old database page }
    {
        let row = self.admit(database, page, bytes)?;
        let was = self.was(database, page);
        self.saved.add_once(SavedPage {
            level: self.levels.len(),
            database,
            page,
            was,
        });
        self.changed.put(database, page, row);
        self.maps[database].insert(page);
        self.sizes[database] = self.sizes[database].max(page);
        Ok(())
    }
}
