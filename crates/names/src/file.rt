// The files of a list of databases, by their numbers.
ghost use Rattle.std.specs.Prelude.{◌≡◌, ◌+◌, ◌<◌, ◌≤◌, false, MatchOption};
ghost use Rattle.names.specs.Names.{is_file};
ghost use Rattle.names.specs.Numbered.{Numbered};

use page_map::DATABASES;

/// The number of the super-journal among the files.
pub const SUPER_JOURNAL: usize = 2 * DATABASES;

/// The files of four databases: the databases, their journals, the super-journal.
pub(crate) const FILES: usize = SUPER_JOURNAL + 1;

/// The number of a database's journal among the files. For the crates of this repository: it wants a
/// database below four.
pub fn journal_of(database: usize) -> usize
    requires { database < 4 }
    ensures { result ≡ 4 + database }
{
    DATABASES + database
}

/// A file that goes with a list of databases.
// For this crate alone: above it a file is told by its number, a rule of the project (docs/REFUSALS.md), and
// a `File` would be turned into it at each call.
#[derive(Clone, Copy)]
pub(crate) enum File {
    /// A database: which one.
    Database(usize),
    /// A database's journal: of which one.
    Journal(usize),
    /// The super-journal.
    SuperJournal,
}

impl File {
    /// The file of a number: 0 to 3 a database, 4 to 7 its journal, 8 the super-journal. There may
    /// be none with so many databases.
    pub(crate) fn numbered(databases: usize, number: usize) -> Option<File>
        requires { databases ≤ 4 }
        ensures { MatchOption result (is_file databases number ≡ false) (λ f. Numbered databases number f) }
    {
        if number < databases {
            Some(File::Database(number))
        } else if (DATABASES..DATABASES + databases).contains(&number) {
            Some(File::Journal(number - DATABASES))
        } else if number == SUPER_JOURNAL {
            Some(File::SuperJournal)
        } else {
            None
        }
    }
}
