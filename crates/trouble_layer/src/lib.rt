// The trouble layer: over any card it refuses given calls, and passes every other call on.
#![tactic(auto)]

ghost use Rattle.std.specs.Prelude.{◌≡◌, ℕ, ◌<◌, true, false, ◌&&◌, length as count, MatchResult, MatchOption};
ghost use Rattle.card.specs.declared.fault.Cause.TheVariants.{Device};
ghost use Rattle.card.specs.Meaning.{Lawful, Switched};
ghost use Rattle.card.specs.Calls.{Answered, ToldLength, ToldBytes};
ghost use Rattle.card.specs.Calls.Op.{length_of, read as reading, create as creating, write as writing, set_length, sync as syncing, delete as deleting};
ghost use Rattle.trouble_layer.specs.Trouble.{layered, listed, next_call, Troubled};

use card::{Card, CardCall, CardFault, Cause};
use few::Few;

/// The most calls that a layer can be given.
pub const TROUBLES: usize = 8;

/// A layer over a card that answers device at given calls while power is on.
#[derive(Drop)]
pub struct TroubleLayer<C> {
    below: C,
    given: Few<u32, TROUBLES>,
    calls: u32,
    origin: u8,
}

/// The given numbers as a list, if it can hold them all.
fn listing(numbers: &[u32]) -> Option<Few<u32, TROUBLES>>
    ensures { MatchOption result (8 < count numbers.now) (λ given. given.items ≡ numbers.now) }
{
    if numbers.len() > TROUBLES {
        return None;
    }
    Some(Few::from_slice(numbers))
}

impl<C> TroubleLayer<C> {
    /// A layer over a card that refuses the calls of the given numbers, the first call being 1. With
    /// more than 8 numbers it gives the card back.
    pub fn new(below: C, numbers: &[u32], origin: u8) -> Result<TroubleLayer<C>, C>
        ensures { MatchResult result (λ l. (l.below ≡ below) × (l.given.items ≡ numbers.now) × (l.calls ≡ 0) × (l.origin ≡ origin)) (λ c. (c ≡ below) × (8 < count numbers.now)) }
    {
        match listing(numbers) {
            Some(given) => Ok(TroubleLayer {
                below,
                given,
                calls: 0,
                origin,
            }),
            None => Err(below),
        }
    }

    /// The card below, with no layer over it any more.
    pub fn into_below(self) -> C
        ensures { result ≡ self.below }
    {
        let TroubleLayer { below, .. } = self;
        below
    }
}

impl<C: Card> TroubleLayer<C> {
    /// Counts a call, and refuses it if power is on and its number is given.
    fn begin(&mut self, call: CardCall) -> Result<(), CardFault>
        ensures troubled { MatchResult result (λ u. C.Card.meaning.on self.old.below && listed (next_call self.old.calls) self.old.given.items ≡ false) (λ fault. (C.Card.meaning.on self.old.below && listed (next_call self.old.calls) self.old.given.items ≡ true) × (fault ≡ record { cause = Device; call = call; origin = self.old.origin })) }
        ensures below { self.new.below ≡ self.old.below }
        ensures given { self.new.given ≡ self.old.given }
        ensures calls { self.new.calls ≡ next_call self.old.calls }
        ensures origin { self.new.origin ≡ self.old.origin }
    {
        self.calls = self.calls.wrapping_add(1);
        if self.below.powered() && self.given.as_slice().contains(&self.calls) {
            return Err(CardFault {
                cause: Cause::Device,
                call,
                origin: self.origin,
            });
        }
        Ok(())
    }
}

impl<C: Card> Card for TroubleLayer<C> {
    ghost meaning = { layered C.Card.meaning };

    ghost lawful = { record { kept = λ l n b e. C.lawful.kept l.below n b e; gone = λ l n b e h. C.lawful.gone l.below n b e h } };

    fn length(&mut self, name: &[u8]) -> Result<Option<u32>, CardFault>
        ensures answered { Answered (layered C.Card.meaning) self.old name.now length_of result self.new }
        ensures told { ToldLength (C.Card.meaning.holds self.old.below name.now) result }
        ensures troubled { Troubled C.Card.meaning length_of name.now self.old result self.new }
    {
        self.begin(CardCall::Length)?;
        self.below.length(name)
    }

    fn read(&mut self, name: &[u8], place: u32, buffer: &mut [u8]) -> Result<(), CardFault>
        ensures answered { Answered (layered C.Card.meaning) self.old name.now (reading place (count buffer.old)) result self.new }
        ensures told { ToldBytes (C.Card.meaning.holds self.old.below name.now) place buffer.old result buffer.new }
        ensures troubled { Troubled C.Card.meaning (reading place (count buffer.old)) name.now self.old result self.new }
    {
        self.begin(CardCall::Read)?;
        self.below.read(name, place, buffer)
    }

    fn create(&mut self, name: &[u8]) -> Result<(), CardFault>
        ensures answered { Answered (layered C.Card.meaning) self.old name.now creating result self.new }
        ensures troubled { Troubled C.Card.meaning creating name.now self.old result self.new }
    {
        self.begin(CardCall::Create)?;
        self.below.create(name)
    }

    fn write(&mut self, name: &[u8], place: u32, bytes: &[u8]) -> Result<(), CardFault>
        ensures answered { Answered (layered C.Card.meaning) self.old name.now (writing place bytes.now) result self.new }
        ensures troubled { Troubled C.Card.meaning (writing place bytes.now) name.now self.old result self.new }
    {
        self.begin(CardCall::Write)?;
        self.below.write(name, place, bytes)
    }

    fn set_length(&mut self, name: &[u8], length: u32) -> Result<(), CardFault>
        ensures answered { Answered (layered C.Card.meaning) self.old name.now (set_length length) result self.new }
        ensures troubled { Troubled C.Card.meaning (set_length length) name.now self.old result self.new }
    {
        self.begin(CardCall::SetLength)?;
        self.below.set_length(name, length)
    }

    fn sync(&mut self, name: &[u8]) -> Result<(), CardFault>
        ensures answered { Answered (layered C.Card.meaning) self.old name.now syncing result self.new }
        ensures troubled { Troubled C.Card.meaning syncing name.now self.old result self.new }
    {
        self.begin(CardCall::Sync)?;
        self.below.sync(name)
    }

    fn delete(&mut self, name: &[u8]) -> Result<(), CardFault>
        ensures answered { Answered (layered C.Card.meaning) self.old name.now deleting result self.new }
        ensures troubled { Troubled C.Card.meaning deleting name.now self.old result self.new }
    {
        self.begin(CardCall::Delete)?;
        self.below.delete(name)
    }

    fn power(&mut self)
        ensures switched { Switched (layered C.Card.meaning) self.old self.new }
        ensures calls { self.new.calls ≡ self.old.calls }
        ensures given { self.new.given ≡ self.old.given }
        ensures origin { self.new.origin ≡ self.old.origin }
    {
        self.below.power();
    }

    fn powered(&self) -> bool {
        self.below.powered()
    }
}
