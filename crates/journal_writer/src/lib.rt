// Journals, written: their parts put into a caller's buffer, and whole journals stored on a card.
//
// The crate `journal` has what the bytes are, and judges them.
//
// `as` stands where a u32 and a usize meet, since there is no `From` between them.
#![tactic(auto)]

mod filler;
mod stored;
mod writer;

pub use filler::fill_journal;
pub use stored::store_journal;
pub use writer::{Unfit, put_bytes, put_count, put_header, put_name, put_record, room};
