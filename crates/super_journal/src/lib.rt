// The super-journal: the file that names the journals of one commit, written and read.
#![tactic(auto)]

mod reader;
mod writer;

pub use reader::{NAME_COUNT_LIMIT, SuperNames, read_names};
pub use writer::{put_ended, put_names};
