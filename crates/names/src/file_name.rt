// The name of one file: a database, its journal, or the super-journal.
ghost use Rattle.std.specs.Prelude.{◌≡◌, ◌+◌, ◌≤◌, ◌++◌, length as count};

use card::NAME_LIMIT;
use few::Few;

/// A file's name, of up to 32 bytes.
// `short` is a fact of its own here, since what a contract sees of a `Few` leaves out how many fit.
#[derive(Clone, Copy)]
pub struct FileName {
    bytes: Few<u8, NAME_LIMIT>,
    ghost short: { count bytes.items ≤ 32 },
}

impl FileName {
    /// A name with an ending after it.
    pub(crate) fn ending(name: &[u8], ending: &[u8]) -> FileName
        requires { count name.now + count ending.now ≤ 32 }
        ensures { result.bytes.items ≡ name.now ++ ending.now }
    {
        let mut bytes = Few::from_slice(name);
        bytes.extend_from_slice(ending);
        FileName { bytes }
    }

    /// The bytes of the name.
    pub fn bytes(&self) -> &[u8]
        ensures { result.now ≡ self.now.bytes.items }
    {
        self.bytes.as_slice()
    }
}
