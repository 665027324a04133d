// Checked lists of names.
ghost use Rattle.std.specs.Prelude.{◌≤◌, length as count};
ghost use Rattle.names.specs.Names.{Each, Apart, length_ok, bytes_ok, held};

mod checks;
mod files;

pub use checks::checked;
use few::Few;
use page_map::DATABASES;

/// The most bytes of a database's name.
const NAME_LIMIT: usize = 24;

/// A list of names in fixed memory: 1 to 4.
// `few` is a fact of its own here, since what a contract sees of a `Few` leaves out how many fit.
#[derive(Clone, Copy)]
pub(crate) struct NameList {
    names: Few<Few<u8, NAME_LIMIT>, DATABASES>,
    ghost some: { 1 ≤ count (held names.items) },
    ghost few: { count (held names.items) ≤ 4 },
}

/// A list of names that was checked: 1 to 4 names of 1 to 24 printable bytes, and the names of all
/// files that go with them differ.
#[derive(Clone, Copy)]
pub struct Names {
    list: NameList,
    ghost short: { ∥ Each length_ok (held list.names.items) ∥₁ },
    ghost plain: { ∥ Each bytes_ok (held list.names.items) ∥₁ },
    ghost apart: { ∥ Apart (held list.names.items) ∥₁ },
}
