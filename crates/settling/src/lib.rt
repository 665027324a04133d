// What a recovery does with the journals that were found: its steps R2 and R3.
//
// For each database in order a hot journal's pages are written back, the database gets its first size
// and is made safe; then the journal is deleted, hot or spent. The super-journal goes last.
//
// `as` stands where a u32 and a usize meet, since there is no `From` between them.
#![tactic(auto)]

mod playback;
mod settling;

pub use settling::settle;
