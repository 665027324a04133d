// A refused call of the card, as the set tells it.
ghost use Rattle.std.specs.Prelude.{◌≡◌, None};
ghost use Rattle.refusal.specs.Numbers.{placed};

use crate::step::Step;
use journal::JournalFault;

/// The number of a file that is none of the set's: 0 to 3 are the databases, 4 to 7 their journals,
/// 8 the super-journal.
pub const FOREIGN: usize = 9;

/// A refused call of the card: what the journal tells of it, whole, in which step it was, none in a
/// read, and on which file.
// The file is a number, not an enum: it is told as it stands, by a rule of the project (docs/REFUSALS.md).
#[derive(Clone, Copy, PartialEq, Eq, Debug)]
pub struct SetFault {
    pub journal: JournalFault,
    pub step: Option<Step>,
    pub file: usize,
}

impl From<JournalFault> for SetFault {
    ghost from_gives = { λ e r. r ≡ record { journal = e; step = None; file = 9 } };

    fn from(journal: JournalFault) -> SetFault {
        SetFault {
            journal,
            step: None,
            file: FOREIGN,
        }
    }
}

impl SetFault {
    /// The same fault, told with its step, its file and the page record that it is about, 0 for none.
    pub fn at(self, step: Option<Step>, file: usize, record: u32) -> SetFault
        ensures { result ≡ placed self step file «record» }
    {
        SetFault {
            journal: JournalFault {
                record,
                ..self.journal
            },
            step,
            file,
        }
    }
}
