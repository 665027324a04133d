// What the bytes of a journal are found to be.
ghost use Rattle.journal.specs.Judged.{Judged};
ghost use Rattle.journal.specs.Laws.{JournalLaws};

use crate::header::{is_spent, length_holds, read_header};
use crate::layout::{SUPER_EXTRA, record_place};
use crate::named::super_holds;
use crate::records::Records;

/// Where bytes lie in others.
#[derive(Clone, Copy, PartialEq, Eq, Debug)]
pub struct Span {
    pub place: usize,
    pub length: usize,
}

/// The parts of a sound journal; its page records are read in place. The numbers stand here and not as a header
/// in a field: callers name each, and `sound.header.count` would be no plainer.
// Apart from the bytes: parts that borrow the bytes could not come out of `judge_file`, for the reason that stands
// there. `survey` and `settling` have the two together again, at one place each, by `journal_in`.
#[derive(Clone, Copy, PartialEq, Eq, Debug)]
pub struct Sound {
    pub count: u32,
    pub nonce: u32,
    pub size: u32,
    /// Where the super-journal's name lies, if there is one.
    pub name: Option<Span>,
}

/// What the bytes of a journal are: spent, damaged at a page record (from 1; 0 for no such record), or sound.
///
/// The record is a number and no Option: it is told as it stands, and 0 for no record is a rule of the
/// project (docs/FORMAT.md).
#[derive(Clone, Copy, PartialEq, Eq, Debug)]
pub enum Verdict {
    Spent,
    Damaged { record: u32 },
    Sound(Sound),
}

/// Judges the bytes of a journal. Its contract also has the laws of such bytes.
#[tactic(auto, using(crate::proofs::Laws::journal_laws))]
pub fn judge(bytes: &[u8]) -> Verdict
    ensures judged { Judged bytes.now result }
    ensures laws { JournalLaws }
{
    if is_spent(bytes) {
        return Verdict::Spent;
    }
    let Some(header) = read_header(bytes) else {
        return Verdict::Damaged { record: 0 };
    };
    if !length_holds(bytes.len(), header.count) {
        return Verdict::Damaged { record: 0 };
    }
    if let Some(index) = (Records { bytes, header }).first_wrong() {
        return Verdict::Damaged { record: index + 1 };
    }
    let end = record_place(header.count);
    let past = &bytes[end..];
    let name = match past {
        [] => None,
        _ if super_holds(past) => Some(Span {
            place: end + 4,
            length: past.len() - SUPER_EXTRA,
        }),
        _ => return Verdict::Damaged { record: 0 },
    };
    Verdict::Sound(Sound {
        count: header.count,
        nonce: header.nonce,
        size: header.size,
        name,
    })
}
