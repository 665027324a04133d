// A set of databases over a card: one transaction at a time, its pages in memory, its files on the card.
#![tactic(auto)]

pub mod checked_names;
mod mode;
mod set;
mod transaction;

pub use mode::Mode;
pub use set::Set;
pub use transaction::Transaction;
