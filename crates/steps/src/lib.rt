// The card calls of a commit or a recovery, each told with where it stands: the step, the file and the
// page record. A fault of any of them comes back as the set tells it.
#![tactic(auto)]

mod calls;
mod site;

pub use site::Site;
