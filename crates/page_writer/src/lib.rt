// The changed pages of one database, as a commit writes them to its file.
#![tactic(auto)]

mod databases;

pub use databases::write_pages;
