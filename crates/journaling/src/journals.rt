// The journal of one database: its originals read, the bytes filled around them, and all stored.
ghost use Rattle.std.specs.Option.{ForSome};
ghost use Rattle.std.specs.Prelude.{◌≤◌, length as count};

use crate::originals::read_originals;
use crate::pages::recorded_pages;
use card::Card;
use journal::JOURNAL_LIMIT;
use journal_writer::{fill_journal, store_journal};
use names::{FileName, Names, journal_of};
use pager::Memory;
use refusal::{SetFault, Step};
use sizes::Sizes;
use steps::Site;

/// What the journals of a commit are made by. Each names the super-journal, if there is one.
#[derive(Clone, Copy)]
pub struct Journals<'a> {
    pub names: &'a Names,
    pub memory: &'a Memory,
    pub sizes: &'a Sizes,
    pub nonce: u32,
    pub super_journal: Option<FileName>,
    ghost named: { ForSome super_journal (λ name. 1 ≤ count name.bytes.items) },
}

impl Journals<'_> {
    ghost use Rattle.std.specs.Prelude.{◌≡◌, ◌<◌};
    ghost use Rattle.journal_writer.specs.Written.{told};
    ghost use Rattle.names.specs.Files.{how_many};
    ghost use Rattle.steps.specs.Tasks.{Went};
    ghost use Rattle.journaling.specs.Plan.{journal_tasks};
    ghost use Rattle.journaling.specs.Changes.{contents};
    ghost use Rattle.journaling.specs.Made.{files, super_named, recorded_by};

    /// The name of the super-journal, if there is one.
    fn super_name(&self) -> Option<&[u8]>
        ensures { told result ≡ super_named self.now }
    {
        self.super_journal.as_ref().map(|file| file.bytes())
    }

    /// Makes the journal of a database: creates it, reads the originals that it records, stores it whole
    /// with count 0, and then its count. For the crates of this repository: it wants a database of the
    /// names.
    pub fn make<C: Card>(
        &self,
        card: &mut C,
        database: usize,
        buffer: &mut [u8; JOURNAL_LIMIT],
    ) -> Result<(), SetFault>
        requires { database < how_many self.now.names.now }
        ensures { Went C.Card.meaning (journal_tasks (files self.now) self.now.nonce (super_named self.now) (recorded_by self.now (contents (C.Card.meaning.holds card.old (files self.now database))) database)) card.old result card.new }
    {
        let file = self.names.file(database);
        let number = journal_of(database);
        let journal = self.names.file(number);
        let size = self.sizes.get(database);
        let site = Site::new(Step::C2, number);
        site.create(card, journal.bytes())?;
        let recorded = recorded_pages(self.memory, database, size);
        let pages = recorded.as_slice();
        read_originals(card, file.bytes(), database, pages, buffer)?;
        let name = self.super_name();
        let length = fill_journal(buffer, self.nonce, size, pages, name).unwrap();
        site.told(store_journal(
            card,
            journal.bytes(),
            &buffer[0..length],
            pages.len() as u32,
        ))
    }
}
