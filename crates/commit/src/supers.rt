// The super-journal of a commit: made before the journals, and deleted when all databases are safe.
ghost use Rattle.std.specs.Prelude.{◌≡◌, ◌+◌, [], ◌∷◌, map, if◌then◌else◌};
ghost use Rattle.card.specs.Calls.Op.{delete as deletes};
ghost use Rattle.super_journal.specs.Super.{super_journal_bytes as names_bytes};
ghost use Rattle.refusal.specs.declared.step.Step.TheVariants.{C4};
ghost use Rattle.steps.specs.Tasks.{Went};
ghost use Rattle.journaling.specs.Plan.{for_each, call, naming_tasks};
ghost use Rattle.commit.specs.Ended.{Dropped};
ghost use Rattle.commit.specs.Works.{files, listed, journals, several};

use crate::work::Work;
use card::Card;
use journal::JOURNAL_LIMIT;
use names::{SUPER_JOURNAL, journal_of};
use refusal::{SetFault, Step};
use set_files::delete_file;
use steps::Site;
use super_journal::put_ended;

impl Work<'_> {
    /// Fills the buffer with the names of the journals of the commit, and tells these bytes.
    // A loop as in `put_names`, and no call of it: that takes a list of borrowed names, and here each name is made in
    // its turn, so that the list would want a second one, of the names that it borrows.
    fn fill_super<'b>(&self, buffer: &'b mut [u8; JOURNAL_LIMIT]) -> &'b [u8]
        ensures { result.now ≡ names_bytes (journals self.now) }
    {
        let mut end = 0;
        for database in self.changed() {
            let journal = self.names.file(journal_of(*database));
            end = put_ended(buffer, end, journal.bytes());
        }
        &buffer[0..end]
    }

    /// Makes the super-journal, if two or more databases change.
    pub fn open_super<C: Card>(
        &self,
        card: &mut C,
        buffer: &mut [u8; JOURNAL_LIMIT],
    ) -> Result<(), SetFault>
        ensures { Went C.Card.meaning (if several self.now then naming_tasks (files self.now) (journals self.now) else []) card.old result card.new }
    {
        if !self.many() {
            return Ok(());
        }
        let bytes = self.fill_super(buffer);
        let file = self.names.file(SUPER_JOURNAL);
        let site = Site::new(Step::C1, SUPER_JOURNAL);
        site.create(card, file.bytes())?;
        site.write(card, file.bytes(), 0, bytes)?;
        site.sync(card, file.bytes())
    }

    /// Deletes the file whose deletion makes the commit count: the only journal, or else the super-journal.
    pub fn close<C: Card>(&self, card: &mut C) -> Result<(), SetFault>
        ensures { Went C.Card.meaning (if several self.now then call (files self.now) C4 8 deletes ∷ [] else for_each (λ d. call (files self.now) C4 (4 + d) deletes ∷ []) (listed self.now)) card.old result card.new }
    {
        match self.changed() {
            [] => Ok(()),
            [database] => delete_file(card, self.names, Step::C4, journal_of(*database)),
            _ => delete_file(card, self.names, Step::C4, SUPER_JOURNAL),
        }
    }

    /// Deletes each journal that became spent with the super-journal, going on after a refusal, and tells
    /// how many were refused.
    pub fn delete_spent_journals<C: Card>(&self, card: &mut C) -> usize
        ensures { Dropped C.Card.meaning (if several self.now then map (λ d. record { name = files self.now (4 + d); op = deletes }) (listed self.now) else []) card.old result card.new }
    {
        if !self.many() {
            return 0;
        }
        let mut left = 0;
        // a loop: of what the closure of a `filter` did to the card a proof learns nothing
        for database in self.changed() {
            let journal = self.names.file(journal_of(*database));
            if card.delete(journal.bytes()).is_err() {
                left += 1;
            }
        }
        left
    }
}
