// The rollback journal of SQLite's file format within the store's limits: what its bytes are.
//
// This crate judges bytes, also those of a file on a card, and reads sound journals in place. The crate
// `journal_writer` makes such bytes, and `super_journal` has the file that names a commit's journals.
// What is done about a set of databases is decided above them. docs/FORMAT.md has the bytes as tables.
//
// `as` stands where a u32 and a usize meet, since there is no `From` between them.
#![tactic(auto)]

mod fault;
mod header;
mod layout;
mod named;
mod reader;
mod records;
mod stored;
mod verdict;

pub use fault::JournalFault;
pub use layout::{
    BLANK, MAGIC, RECORD, RECORD_LIMIT, SECTOR, SUPER_EXTRA, SUPER_PAGE, checksum, record_place,
};
pub use named::byte_sum;
pub use page_map::{PAGE, PAGE_LIMIT};
pub use stored::{JOURNAL_LIMIT, judge_file};
pub use verdict::{Sound, Span, Verdict, judge};
