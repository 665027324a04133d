// Checked lists of names, as a set takes them. Commit and recovery stand on them too, so their rules are a crate
// of their own, `names`.
pub use names::{DATABASES, FileName, Names, checked};
