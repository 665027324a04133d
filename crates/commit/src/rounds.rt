// Rounds through the databases that a commit changes, in order.
//
// Each is a short `for`: after `try_for_each` a proof knows nothing of what its closure did to the card, and
// a round of our own over a closure would have to say by clauses when the closure may be called and what it
// leaves at each turn.
ghost use Rattle.std.specs.Prelude.{◌≡◌, ℕ, ◌<◌, List};
ghost use Rattle.names.specs.Files.{how_many};
ghost use Rattle.pager.specs.View.{view};
ghost use Rattle.steps.specs.Tasks.{Went};
ghost use Rattle.journaling.specs.Plan.{for_each, change_tasks, journal_tasks, super_of};
ghost use Rattle.journaling.specs.Changes.{change_of, contents};
ghost use Rattle.commit.specs.Works.{files, listed, several};

use crate::work::Work;
use card::Card;
use journal::JOURNAL_LIMIT;
use journaling::Journals;
use names::SUPER_JOURNAL;
use page_writer::write_pages;
use refusal::SetFault;

impl Work<'_> {
    /// Makes the journal of each changed database. It names the super-journal if there are two or more.
    pub fn make_journals<C: Card>(
        &self,
        card: &mut C,
        buffer: &mut [u8; JOURNAL_LIMIT],
    ) -> Result<(), SetFault>
        ensures { (stored : ℕ → List ℕ) → ((k : ℕ) → k < how_many self.now.names.now → contents (C.Card.meaning.holds card.old (files self.now k)) ≡ stored k) → Went C.Card.meaning (for_each (λ d. journal_tasks (files self.now) self.now.nonce (super_of (files self.now) (several self.now)) (change_of stored self.now.sizes.now.rows (view stored self.now.memory.now) d)) (listed self.now)) card.old result card.new }
    {
        let journals = Journals {
            names: self.names,
            memory: self.memory,
            sizes: self.sizes,
            nonce: self.nonce,
            super_journal: self.many().then_some(self.names.file(SUPER_JOURNAL)),
        };
        for database in self.changed() {
            journals.make(card, *database, buffer)?;
        }
        Ok(())
    }

    /// Writes the changed pages of each changed database.
    pub fn write_databases<C: Card>(&self, card: &mut C) -> Result<(), SetFault>
        ensures { (stored : ℕ → List ℕ) (base : List ℕ) → Went C.Card.meaning (for_each (λ d. change_tasks (files self.now) (change_of stored base (view stored self.now.memory.now) d)) (listed self.now)) card.old result card.new }
    {
        for database in self.changed() {
            write_pages(card, self.names, self.memory, *database)?;
        }
        Ok(())
    }
}
