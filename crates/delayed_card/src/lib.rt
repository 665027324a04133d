// The delayed card: it keeps its files in an image of two halves that the caller lends, what is surely
// kept and what files hold now, and it can be told to lose power.
#![tactic(auto)]

mod cut;
mod delayed;

pub use cut::Untold;
pub use delayed::DelayedCard;
