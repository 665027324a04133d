// What is found of one journal.
ghost use Rattle.std.specs.Prelude.{◌≡◌};
ghost use Rattle.survey.specs.Linked.{found_of, link_of};

use crate::report::Found;

/// Which super-journal a hot journal names: the set's, or another.
#[derive(Clone, Copy, PartialEq, Eq)]
pub(crate) enum Link {
    Ours,
    Other,
}

/// What a journal is. Only a hot one has a link: which super-journal it names, if it names one.
#[derive(Clone, Copy)]
pub(crate) enum Look {
    Absent,
    Spent,
    Hot { records: u32, link: Option<Link> },
}

impl Look {
    /// Which super-journal the journal names, if it is hot and names one.
    pub(crate) fn link(self) -> Option<Link>
        ensures { result ≡ link_of self }
    {
        match self {
            Look::Absent | Look::Spent => None,
            Look::Hot { link, .. } => link,
        }
    }
}

impl From<Look> for Found {
    ghost from_gives = { λ look r. r ≡ found_of look };

    fn from(look: Look) -> Found {
        match look {
            Look::Absent => Found::None,
            Look::Spent => Found::Spent,
            Look::Hot { records, .. } => Found::Hot { records },
        }
    }
}
