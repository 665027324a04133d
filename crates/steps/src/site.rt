// Where a call of the card stands in the work of a set.
ghost use Rattle.std.specs.Prelude.{◌≡◌, None};
ghost use Rattle.steps.specs.Tasks.{at, at_record, told_journal, told_card};

use card::CardFault;
use journal::JournalFault;
use refusal::{SetFault, Step};

/// Where a call of the card stands: its step, none in a read, the number of its file, and the page
/// record that it is about, from 1; 0 for none.
// The file and the record are numbers as in the fault that is told of them.
#[derive(Clone, Copy)]
pub struct Site {
    pub step: Option<Step>,
    pub file: usize,
    pub record: u32,
}

impl Site {
    /// A file, in a step.
    pub fn new(step: Step, file: usize) -> Site
        ensures { result ≡ at step file }
    {
        Site::of_record(step, file, 0)
    }

    /// A file, in a step, for a page record.
    pub fn of_record(step: Step, file: usize, record: u32) -> Site
        ensures { result ≡ at_record step file «record» }
    {
        Site {
            step: Some(step),
            file,
            record,
        }
    }

    /// A file, in a read.
    pub fn reading(file: usize) -> Site
        ensures { result ≡ record { step = None; file = file; «record» = 0 } }
    {
        Site {
            step: None,
            file,
            record: 0,
        }
    }

    /// What the journal's part answered, told with the site.
    pub fn told<V>(self, answer: Result<V, JournalFault>) -> Result<V, SetFault>
        ensures { result ≡ told_journal self answer }
    {
        answer.map_err(|fault| SetFault::from(fault).at(self.step, self.file, self.record))
    }

    /// What the card answered, told with the site.
    pub fn told_card<V>(self, answer: Result<V, CardFault>) -> Result<V, SetFault>
        ensures { result ≡ told_card self answer }
    {
        self.told(answer.map_err(JournalFault::from))
    }
}
