// Making a set, taking it apart, and looking at it.
ghost use Rattle.std.specs.Prelude.{◌≡◌, ℕ, ◌<◌, ◌≤◌, List, [], ◌∷◌, MatchResult, slice_index};
ghost use Rattle.names.specs.Files.{how_many};
ghost use Rattle.refusal.specs.declared.refusals.Refusal.TheVariants.{NoDatabase};
ghost use Rattle.pager.specs.Machine.{cleared};
ghost use Rattle.pager.specs.View.{view, Stored};
ghost use Rattle.store.specs.Modes.{is_ready};
ghost use Rattle.store.specs.declared.mode.Mode.TheVariants.{Cold};

use crate::mode::Mode;
use crate::set::Set;
use journal::JOURNAL_LIMIT;
use names::Names;
use pager::Memory;
use refusal::Refusal;
use sizes::Sizes;

impl<C> Set<C> {
    /// A set of these databases on a card: cold, with nothing begun.
    pub fn new(names: Names, card: C) -> Set<C>
        ensures card { result.card ≡ card }
        ensures names { result.names ≡ names }
        ensures mode { result.mode ≡ Cold }
        ensures begun { result.begun ≡ 0 }
        ensures stored { result.stored.rows ≡ 1 ∷ 1 ∷ 1 ∷ 1 ∷ [] }
        ensures sizes { result.memory.sizes ≡ result.stored.rows }
        ensures empty { (result.memory.changed.rows.items ≡ []) × (result.memory.saved.rows.items ≡ []) }
        ensures view { (files : ℕ → List ℕ) → Stored files result.stored.rows → view files result.memory ≡ cleared files }
    {
        let stored = Sizes::ones();
        let memory = Memory::new(names.count(), stored.rows());
        Set {
            card,
            names,
            memory,
            stored,
            mode: Mode::Cold,
            begun: 0,
            buffer: [0; JOURNAL_LIMIT],
        }
    }

    /// The card, with no set over it any more.
    pub fn into_card(self) -> C
        ensures { result ≡ self.card }
    {
        let Set { card, .. } = self;
        card
    }

    /// The card under the set, to look at.
    pub fn card(&self) -> &C
        ensures { result.now ≡ self.now.card }
    {
        &self.card
    }

    /// Whether the set is ready for a transaction.
    pub fn is_ready(&self) -> bool
        ensures { result ≡ is_ready self.now.mode }
    {
        matches!(self.mode, Mode::Ready)
    }

    /// How many databases there are.
    pub fn count(&self) -> usize
        ensures { result ≡ how_many self.now.names }
    {
        self.names.count()
    }

    /// How many pages a database has now.
    pub fn size(&self, database: usize) -> Result<u32, Refusal>
        ensures { MatchResult result (λ n. (database < how_many self.now.names) × (n ≡ slice_index self.now.memory.sizes database)) (λ e. (how_many self.now.names ≤ database) × (e ≡ NoDatabase)) }
    {
        self.memory.size(database)
    }
}
