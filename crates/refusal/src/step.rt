// The steps of a commit and of a recovery.
use std::fmt;

/// A step: C1 to C5 of a commit, R1 to R4 of a recovery.
#[derive(Clone, Copy, PartialEq, Eq, Debug)]
pub enum Step {
    /// The super-journal is made.
    C1,
    /// The journals are made.
    C2,
    /// The changed pages are written.
    C3,
    /// The super-journal, or the only journal, is deleted.
    C4,
    /// The journals are deleted.
    C5,
    /// The files are looked at.
    R1,
    /// The journals are played back and deleted.
    R2,
    /// The super-journal is deleted.
    R3,
    /// The lengths of the databases are looked at.
    R4,
}

/// The step by its name.
impl fmt::Display for Step {
    fn fmt<W: fmt::Write>(&self, f: &mut fmt::Formatter<W>) -> fmt::Result {
        f.write_str(match self {
            Step::C1 => "C1",
            Step::C2 => "C2",
            Step::C3 => "C3",
            Step::C4 => "C4",
            Step::C5 => "C5",
            Step::R1 => "R1",
            Step::R2 => "R2",
            Step::R3 => "R3",
            Step::R4 => "R4",
        })
    }
}
