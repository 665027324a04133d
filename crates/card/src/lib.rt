// A card: files by name, on a supply that can fail without warning.
//
// A card's meaning has four parts: whether power is on, what each present file holds now, which contents
// of each file may remain if power fails, and where a fault may come from. Every call says what it does to
// that meaning by one relation over what was asked and what was answered; docs/CARD.md tells it in words.
#![tactic(auto)]

ghost use Rattle.std.specs.Prelude.{◌≡◌, ℕ, Bool, List, length as count, Option};
ghost use Rattle.card.specs.Meaning.{Meaning, Lawful, Switched};
ghost use Rattle.card.specs.Calls.{Answered, ToldLength, ToldBytes, name_ok};
ghost use Rattle.card.specs.Calls.Op.{length_of, read as reading, create as creating, write as writing, set_length, sync as syncing, delete as deleting};
ghost use Rattle.card.specs.Crash.{CrashLaw};
ghost use Rattle.card.specs.Examples.{Examples};

mod fault;

pub use fault::{CardCall, CardFault, Cause};

/// The most bytes that a name has; the fewest is 1.
pub const NAME_LIMIT: usize = 32;

/// The most bytes that a file holds.
pub const FILE_LIMIT: usize = 2_097_152;

/// Whether a name has a lawful length.
pub fn is_name(name: &[u8]) -> bool
    ensures { result ≡ name_ok name.now }
{
    (1..=NAME_LIMIT).contains(&name.len())
}

pub trait Card {
    /// What the card means: whether power is on, what the file of a name holds now, none if it is
    /// absent, the contents of a present file that may remain if power fails, and the origins that the
    /// faults of this card, and of the cards below it, may carry.
    ghost meaning: { Meaning Self };

    /// How many bytes the file holds now, or none if it is absent.
    fn length(&mut self, name: &[u8]) -> Result<Option<u32>, CardFault>
        ensures answered { Answered meaning self.old name.now length_of result self.new }
        ensures told { ToldLength (meaning.holds self.old name.now) result };

    /// Fills the buffer with the file's bytes from a place on; a refused read leaves it.
    fn read(&mut self, name: &[u8], place: u32, buffer: &mut [u8]) -> Result<(), CardFault>
        ensures answered { Answered meaning self.old name.now (reading place (count buffer.old)) result self.new }
        ensures told { ToldBytes (meaning.holds self.old name.now) place buffer.old result buffer.new };

    /// Makes an absent file present and empty; only that may remain.
    fn create(&mut self, name: &[u8]) -> Result<(), CardFault>
        ensures { Answered meaning self.old name.now creating result self.new };

    /// Puts bytes into the file at a place at or before its end.
    fn write(&mut self, name: &[u8], place: u32, bytes: &[u8]) -> Result<(), CardFault>
        ensures { Answered meaning self.old name.now (writing place bytes.now) result self.new };

    /// Cuts the file, or fills it with zeros, to a length.
    fn set_length(&mut self, name: &[u8], length: u32) -> Result<(), CardFault>
        ensures { Answered meaning self.old name.now (set_length length) result self.new };

    /// Leaves only what the file holds now as what may remain of it.
    fn sync(&mut self, name: &[u8]) -> Result<(), CardFault>
        ensures { Answered meaning self.old name.now syncing result self.new };

    /// Makes a present file absent; only absence may remain.
    fn delete(&mut self, name: &[u8]) -> Result<(), CardFault>
        ensures { Answered meaning self.old name.now deleting result self.new };

    /// Switches power on. It is never refused.
    fn power(&mut self)
        ensures { Switched meaning self.old self.new };

    /// Whether power is on. It is never refused.
    fn powered(&self) -> bool
        ensures { result ≡ meaning.on self.now };

    /// The two laws that every card's meaning keeps: what a file holds now may remain, and of an absent
    /// file only absence.
    ghost lawful: { Lawful meaning };
}

/// What the meaning of any card lets a proof say about power failure: its contract is the two laws of
/// that meaning; the law that what a file may be after a call could remain before it, or, of the
/// call's own file, after its work; and small cases of the calls. It answers whether the card that it
/// was shown has power.
pub fn crash_law<C: Card>(card: &C) -> bool
    ensures examples { Examples }
    ensures lawful { Lawful C.Card.meaning }
    ensures law { CrashLaw C.Card.meaning }
    ensures powered { result ≡ C.Card.meaning.on card.now }
{
    card.powered()
}
