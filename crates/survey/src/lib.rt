// What a recovery finds before it changes anything: its step R1, which only looks at the files.
//
// Every database must be present. A journal is absent, damaged, spent or hot: hot is a sound one,
// unless it names a super-journal that is absent. A hot journal may name only the set's super-journal,
// which must be a list of names, none of them of a present file that is not a journal of the set.
//
// `as` stands where a u32 and a usize meet, since there is no `From` between them.
#![tactic(auto)]

mod journals;
mod listing;
mod look;
mod overview;
mod presence;
mod report;

pub use overview::survey;
pub use report::Found;
