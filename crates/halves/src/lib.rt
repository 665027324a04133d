// An image in two halves of equal size: what is surely kept, and what the files hold now.
//
// A file lies in the same slot of both halves. The calls that change both stand here, and what a power
// failure keeps of each file; every other call is the image's, on the current half.
#![tactic(auto)]

mod both;
mod kept;
mod loss;

pub use both::Halves;
pub use kept::{CHOICES, Kept, UnknownKept};
