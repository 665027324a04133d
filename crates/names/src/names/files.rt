// The names of the files of a list, by number.
ghost use Rattle.std.specs.Prelude.{◌≡◌, ◌<◌, ◌≤◌, ◌++◌, length as count, if◌then◌else◌, true, false, Some, None, Decides, MatchOption, nat_lt};
ghost use Rattle.std.specs.Option.{option_map};
ghost use Rattle.names.specs.Names.{journal_ending, super_ending, listed, is_file, file_name, JournalOf};
ghost use Rattle.names.specs.Files.{names_in, names_of, file_of, how_many, FileNamed, NoFileNamed};

use crate::file::{FILES, File, SUPER_JOURNAL, journal_of};
use crate::file_name::FileName;
use crate::names::{NameList, Names};

/// What the name of a journal ends with.
const JOURNAL_ENDING: &[u8] = b"-journal";

/// What the name of a super-journal ends with.
const SUPER_ENDING: &[u8] = b"-mj";

impl NameList {
    /// The name of the file of that number, if the list has such a file.
    pub(crate) fn name_of(&self, number: usize) -> Option<FileName>
        ensures { MatchOption result (is_file (count (names_in self.now)) number ≡ false) (λ f. (is_file (count (names_in self.now)) number ≡ true) × (f.bytes.items ≡ file_name (listed (names_in self.now)) number)) }
    {
        let names = self.names.as_slice();
        match File::numbered(names.len(), number)? {
            File::Database(i) => Some(FileName::ending(names[i].as_slice(), &[])),
            File::Journal(i) => Some(FileName::ending(names[i].as_slice(), JOURNAL_ENDING)),
            File::SuperJournal => Some(FileName::ending(names[0].as_slice(), SUPER_ENDING)),
        }
    }

    /// Whether there is a file of that number and it has the name.
    pub(crate) fn has(&self, number: usize, name: &[u8]) -> bool
        ensures { Decides result ((is_file (count (names_in self.now)) number ≡ true) × (file_name (listed (names_in self.now)) number ≡ name.now)) }
    {
        let Some(file) = self.name_of(number) else {
            return false;
        };
        file.bytes() == name
    }
}

impl Names {
    /// How many databases there are.
    pub fn count(&self) -> usize
        ensures { result ≡ how_many self.now }
    {
        self.list.names.len()
    }

    /// The name of a database.
    pub fn database(&self, i: usize) -> Option<&[u8]>
        ensures { option_map (λ x. x.now) result ≡ (if nat_lt i (how_many self.now) then Some (listed (names_of self.now) i) else None) }
    {
        Some(self.list.names.as_slice().get(i)?.as_slice())
    }

    /// The name of a database's journal.
    pub fn journal(&self, i: usize) -> Option<FileName>
        ensures { MatchOption result (how_many self.now ≤ i) (λ f. (i < how_many self.now) × (f.bytes.items ≡ listed (names_of self.now) i ++ journal_ending)) }
    {
        let name = self.list.names.as_slice().get(i)?;
        Some(FileName::ending(name.as_slice(), JOURNAL_ENDING))
    }

    /// The name of the file of that number: 0 to 3 a database, 4 to 7 its journal, 8 the super-journal.
    /// It is empty if the list has no such file.
    // No Option: the word of every contract above, `file_of`, is total, and each caller would unwrap.
    pub fn file(&self, file: usize) -> FileName
        ensures { result.bytes.items ≡ file_of self.now file }
    {
        self.list
            .name_of(file)
            .unwrap_or(FileName::ending(&[], &[]))
    }

    /// The number of the file that has the name, if a file has it. The names of all files differ, so
    /// no other file has it.
    pub fn number_of(&self, name: &[u8]) -> Option<usize>
        ensures { MatchOption result (NoFileNamed (file_of self.now) (how_many self.now) name.now) (FileNamed (file_of self.now) (how_many self.now) name.now) }
    {
        (0..FILES).find(|k| self.list.has(*k, name))
    }

    /// Whether the name is that of a journal of the list.
    pub fn is_journal(&self, name: &[u8]) -> bool
        ensures { Decides result (JournalOf (names_of self.now) name.now) }
    {
        (0..self.count()).any(|i| self.file(journal_of(i)).bytes() == name)
    }

    /// The name of the super-journal.
    pub fn super_journal(&self) -> FileName
        ensures { result.bytes.items ≡ listed (names_of self.now) 0 ++ super_ending }
    {
        self.file(SUPER_JOURNAL)
    }
}
