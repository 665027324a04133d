// Recovery of a set: what a failed commit left is rolled back or forgotten.
//
// Power is switched on, and then:
//   R1  the files are only looked at. Every database must be present. A journal is absent, damaged,
//       spent or hot: hot is a sound one, unless it names a super-journal that is absent. A hot
//       journal may name only the set's super-journal, which must be a list of names, none of them
//       of a present file that is not a journal of the set. A refusal here has changed nothing.
//   R2  for each database in order: a hot journal's pages are written back, the database gets its
//       first size and is made safe; then the journal is deleted, hot or spent.
//   R3  the super-journal is deleted if it is present.
//   R4  each database must be 1 to 4,096 whole pages long.
// A fault of the card ends it at once; it can be run again from the start. The crate `survey` has R1,
// `settling` has R2 and R3; R4 is here.
//
// `as` stands where a u32 and a usize meet, since there is no `From` between them.
#![tactic(auto)]

mod lengths;
mod recovering;
mod report;

pub use recovering::recover;
pub use report::Recovery;
pub use survey::Found;
