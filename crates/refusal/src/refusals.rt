// The numbered refusals.
ghost use Rattle.std.specs.Prelude.{◌≡◌};
ghost use Rattle.refusal.specs.declared.refusals.Refusal.TheVariants.{Card as by_card};
ghost use Rattle.refusal.specs.Numbers.{refusal_number};

use crate::fault::SetFault;

// Files and records beside a number are numbers, and 0 is no record: so they are told, by a rule of the
// project (docs/REFUSALS.md).
/// Why a call is refused, with what goes beside the number. The tests of a call go in the order of
/// the numbers. Names and files go by number, from 0.
#[derive(Clone, Copy, PartialEq, Eq, Debug)]
pub enum Refusal {
    /// 1: a list has no names, or over four.
    NameCount,
    /// 2: a name is empty or over 24 bytes: which one.
    NameLength(usize),
    /// 3: a name has a byte that is not printable: which one.
    NameByte(usize),
    /// 4: two file names are equal.
    NamesEqual,
    /// 5: a read on a cold set.
    Cold,
    /// 6: the transaction is void, or not the running one.
    Transaction,
    /// 7: there is no such database.
    NoDatabase,
    /// 8: the buffer has not 512 bytes.
    BufferLength,
    /// 9: the page is not allowed, or past 4,096.
    Page,
    /// 10: 32 pages are changed in all, and this is not among them.
    ChangedFull,
    /// 11: 32 pages are saved, and one more is needed.
    SavedFull,
    /// 12: 8 savepoints stand.
    SavepointsFull,
    /// 13: there is no such savepoint.
    NoSavepoint,
    /// 14: a journal or the super-journal is damaged: which file, and the first wrong page record,
    /// from 1, or 0 for none.
    Damaged { file: usize, record: u32 },
    /// 15: a hot journal names a super-journal that is not the set's: which journal; or that one lists
    /// a present file that is not a journal of the set: 9.
    Foreign(usize),
    /// 16: a database is absent, or has a bad length: which one.
    Database(usize),
    /// 17: a call of the card failed: the fault.
    Card(SetFault),
}

impl Refusal {
    // By cases, since a variant that carries values has no number that a cast could give.
    /// The number by which the refusal is told.
    pub fn number(self) -> u8
        ensures { result ≡ refusal_number self }
    {
        match self {
            Refusal::NameCount => 1,
            Refusal::NameLength(_) => 2,
            Refusal::NameByte(_) => 3,
            Refusal::NamesEqual => 4,
            Refusal::Cold => 5,
            Refusal::Transaction => 6,
            Refusal::NoDatabase => 7,
            Refusal::BufferLength => 8,
            Refusal::Page => 9,
            Refusal::ChangedFull => 10,
            Refusal::SavedFull => 11,
            Refusal::SavepointsFull => 12,
            Refusal::NoSavepoint => 13,
            Refusal::Damaged { .. } => 14,
            Refusal::Foreign(_) => 15,
            Refusal::Database(_) => 16,
            Refusal::Card(_) => 17,
        }
    }
}

impl From<SetFault> for Refusal {
    ghost from_gives = { λ e r. r ≡ by_card e };

    fn from(fault: SetFault) -> Refusal {
        Refusal::Card(fault)
    }
}
