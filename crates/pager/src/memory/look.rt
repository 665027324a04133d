// Making a memory, clearing it, and looking at it.
ghost use Rattle.std.specs.Prelude.{◌≡◌, ℕ, ◌-◌, ◌*◌, ◌<◌, ◌≤◌, min, true, List, [], All, length, is_some, IfSome, MatchOption, MatchResult, slice_index};
ghost use Rattle.std.specs.Option.{option_map};
ghost use Rattle.card.specs.Calls.{part};
ghost use Rattle.pager.specs.Changed.{look};
ghost use Rattle.pager.specs.Examples.{Examples};
ghost use Rattle.pager.specs.Machine.{cleared, size_of, saved_in_all};
ghost use Rattle.page_map.specs.Listed.{above, EachOnce};
ghost use Rattle.page_map.specs.Walks.{left};
ghost use Rattle.page_map.specs.Sets.{counted, NoneAbove, NextAbove, VisitLaw};
ghost use Rattle.pager.specs.Sound.{map_of};
ghost use Rattle.pager.specs.View.{view, fields, Stored, NoSuch, OfKnown};

use crate::changed_pages::ChangedPages;
use crate::memory::Memory;
use crate::saved_pages::SavedPages;
use few::Few;
use page_map::{DATABASES, PAGE, PageMap, Pages};
use refusal::Refusal;

impl Memory {
    /// The memory of a transaction on so many databases, at most four, of these sizes in pages:
    /// nothing is changed, and no savepoint stands.
    pub fn new(count: usize, sizes: [u32; DATABASES]) -> Memory
        ensures count { result.count ≡ min count 4 }
        ensures sizes { result.sizes ≡ sizes }
        ensures empty { (result.changed.rows.items ≡ []) × (result.saved.rows.items ≡ []) }
        ensures view { (files : ℕ → List ℕ) → Stored files sizes → view files result ≡ cleared files }
    {
        Memory {
            count: count.min(DATABASES),
            sizes,
            maps: [PageMap::new(); DATABASES],
            changed: ChangedPages::new(),
            saved: SavedPages::new(),
            levels: Few::new(),
        }
    }

    /// Starts anew on databases of these sizes in pages: nothing is changed, and no savepoint stands.
    // The machine's examples stand on this call, since the check proves its other clauses by itself: theirs is
    // the only proof that is written.
    pub fn clear(&mut self, sizes: [u32; DATABASES])
        ensures count { self.new.count ≡ self.old.count }
        ensures sizes { self.new.sizes ≡ sizes }
        ensures empty { (self.new.changed.rows.items ≡ []) × (self.new.saved.rows.items ≡ []) }
        ensures view { (files : ℕ → List ℕ) → Stored files sizes → view files self.new ≡ cleared files }
        ensures examples { Examples }
    {
        *self = Memory::new(self.count, sizes);
    }

    /// What a page holds, if it is changed.
    pub fn get(&self, database: usize, page: u32) -> Option<&[u8; PAGE]>
        ensures is { option_map (λ x. x.now) result ≡ look (fields self.now).changed database page }
        ensures changed { database < 4 → map_of self.now.maps database page ≡ is_some (option_map (λ x. x.now) result) }
        ensures view { (files : ℕ → List ℕ) → IfSome result (λ x. x.now ≡ part ((view files self.now).held.current database) ((page - 1) * 512) 512) }
        ensures absent { self.now.count ≤ database → result ≡ None }
    {
        self.changed.get(database, page)
    }

    /// That there is such a database.
    pub(super) fn known(&self, database: usize) -> Result<(), Refusal>
        ensures { MatchResult result (λ _. database < self.now.count) (NoSuch self.now database) }
    {
        if database >= self.count {
            return Err(Refusal::NoDatabase);
        }
        Ok(())
    }

    /// How many pages a database has.
    pub fn size(&self, database: usize) -> Result<u32, Refusal>
        ensures is { OfKnown self.now database result (λ n. n ≡ slice_index self.now.sizes database) }
        ensures view { (files : ℕ → List ℕ) → OfKnown self.now database result (λ n. n ≡ size_of ((view files self.now).held.current database)) }
    {
        self.known(database)?;
        Ok(self.sizes[database])
    }

    /// The sizes of four databases, in pages.
    pub fn sizes(&self) -> [u32; DATABASES]
        ensures { result ≡ self.now.sizes }
    {
        self.sizes
    }

    /// How many pages of a database are changed.
    pub fn changed_count(&self, database: usize) -> Result<u32, Refusal>
        ensures { OfKnown self.now database result (λ n. n ≡ counted (map_of self.now.maps database) 4096) }
    {
        self.known(database)?;
        Ok(self.maps[database].count())
    }

    /// The least changed page of a database above this one. Asked from 0 on, and then from each
    /// answer, it visits each changed page once and no other, in ascending order.
    pub fn next_changed(&self, database: usize, page: u32) -> Result<Option<u32>, Refusal>
        ensures next { OfKnown self.now database result (λ o. MatchOption o (NoneAbove (map_of self.now.maps database) page) (λ p. NextAbove (map_of self.now.maps database) page p)) }
        ensures visit { VisitLaw (map_of self.now.maps database) }
    {
        self.known(database)?;
        Ok(self.maps[database].next_above(page))
    }

    /// The changed pages of a database, each once, in ascending order; none of a database that is not there.
    pub fn changed_pages(&self, database: usize) -> Pages<'_>
        ensures is { left result ≡ above (map_of self.now.maps database) 0 4096 }
        ensures few { length (left result) ≤ 32 }
        ensures held { All (λ p. is_some (look (fields self.now).changed database p) ≡ true) (left result) }
        ensures once { EachOnce (map_of self.now.maps database) (left result) }
        ensures absent { self.now.count ≤ database → left result ≡ [] }
    {
        Pages::new(self.maps.get(database))
    }

    /// How many databases there are.
    pub fn count(&self) -> usize
        ensures { result ≡ self.now.count }
    {
        self.count
    }

    /// How many savepoints stand.
    pub fn savepoints(&self) -> usize
        ensures is { result ≡ length self.now.levels.items }
        ensures view { (files : ℕ → List ℕ) → result ≡ length (view files self.now).savepoints }
    {
        self.levels.len()
    }

    /// How many pages are saved, by all savepoints: a page that two of them saved counts twice.
    pub fn saved_count(&self) -> usize
        ensures rows { result ≡ length self.now.saved.rows.items }
        ensures all { (files : ℕ → List ℕ) → result ≡ saved_in_all (view files self.now).savepoints }
    {
        self.saved.count()
    }
}
