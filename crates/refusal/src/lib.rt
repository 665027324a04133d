// Why a call of the set says no: the numbered refusals, and the fault that goes beside the last.
#![tactic(auto)]

mod fault;
mod refusals;
mod step;

pub use fault::{FOREIGN, SetFault};
pub use refusals::Refusal;
pub use step::Step;
