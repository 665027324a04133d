// Checked lists of names: the databases of a set, and the names of all files that go with them.
#![tactic(auto)]

mod file;
mod file_name;
mod names;

pub use file::{SUPER_JOURNAL, journal_of};
pub use file_name::FileName;
pub use names::{Names, checked};
pub use page_map::DATABASES;
