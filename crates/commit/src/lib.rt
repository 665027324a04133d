// A commit on a card: the journals first, then the changed pages, then the deletions that make it count.
//
// The crate `journaling` makes one journal, and `page_writer` writes the pages of one database.
#![tactic(auto)]

mod rounds;
mod supers;
mod whole;
mod work;

pub use whole::commit;
