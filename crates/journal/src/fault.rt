// Why work on a journal failed.
ghost use Rattle.std.specs.Prelude.{◌≡◌};

use card::CardFault;

/// A refused call of the card, whole, and the page record at fault, from 1; 0 for none, a rule of the project
/// (docs/REFUSALS.md).
#[derive(Clone, Copy, PartialEq, Eq, Debug)]
pub struct JournalFault {
    pub card: CardFault,
    pub record: u32,
}

impl From<CardFault> for JournalFault {
    ghost from_gives = { λ e r. r ≡ record { card = e; «record» = 0 } };

    fn from(card: CardFault) -> JournalFault {
        JournalFault { card, record: 0 }
    }
}
