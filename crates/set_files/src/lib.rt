// The files of a set, by their numbers: calls of the card on them, and a journal that was read from one.
//
// The parts of a recovery stand on this: the crate `survey` looks at the files, `settling` settles what
// was found, and `recovery` puts them together. A commit deletes by it.
#![tactic(auto)]

mod numbered;
mod whole;

pub use numbered::{delete_file, judge_numbered, length_named, length_of};
pub use whole::journal_in;
