// The journal of one database, as a commit makes it: which pages it records, their originals read, and
// all stored on the card.
//
// The specs of this crate have the whole plan of a commit, which the crates `page_writer` and `commit`
// carry out with it.
//
// `as` stands where a u32 and a usize meet, since there is no `From` between them.
#![tactic(auto)]

mod journals;
mod originals;
mod pages;

pub use journals::Journals;
pub use pages::is_changed;
