// The delayed card: changes wait for a sync, and it can be told to lose power.
ghost use Rattle.std.specs.Prelude.{◌≡◌, ℕ, ◌/◌, ◌<◌, ◌≤◌, Bool, true, false, length as count, Some, None, MatchResult};
ghost use Rattle.card.specs.declared.fault.Cause.TheVariants.{Power};
ghost use Rattle.card.specs.Meaning.{Lawful, Switched};
ghost use Rattle.card.specs.Calls.{Answered, ToldLength, ToldBytes};
ghost use Rattle.card.specs.Calls.Op.{length_of, read as reading, create as creating, write as writing, set_length, sync as syncing, delete as deleting};
ghost use Rattle.image.specs.Stored.{Empty};
ghost use Rattle.delayed_card.specs.Delayed.{delayed, Delayed, ToldCut, next_cut, lost_now, still_on};
ghost use Rattle.std.proofs.Common.{rules};

use crate::cut::{Cut, Untold, after_call, at_call, told};
use card::{Card, CardCall, CardFault, Cause};
use halves::{Halves, Kept};
use image::blame;

/// A card on an image of two halves that the caller lends: what is surely kept, and what files hold now.
#[derive(Drop)]
pub struct DelayedCard<'a> {
    halves: Halves<'a>,
    on: bool,
    cut: Option<Cut>,
    origin: u8,
}

impl DelayedCard<'_> {
    /// A card with no file and with power, over the two halves of the image.
    pub fn new(image: &mut [u8], origin: u8) -> DelayedCard<'_>
        ensures current { Empty result.halves.current.now }
        ensures synced { Empty result.halves.synced.now }
        ensures halves { (count result.halves.current.now ≡ count image.old / 2) × (count result.halves.synced.now ≡ count image.old / 2) }
        ensures on { result.on ≡ true }
        ensures untold { result.cut ≡ None }
        ensures origin { result.origin ≡ origin }
    {
        DelayedCard {
            halves: Halves::new(image),
            on: true,
            cut: None,
            origin,
        }
    }

    /// Tells the card to lose power at a call from now, the next being 1, and what is then kept of
    /// each file: 0 what was synced, 1 what it holds then, 2 a mix of the two. The last lawful
    /// telling counts.
    // What is kept is a number, and one past 2 is refused: a rule of the project (docs/CARD.md).
    pub fn lose_power_at(&mut self, call: u32, kept: u8) -> Result<(), Untold>
        ensures told { ToldCut call kept self.old.cut result self.new.cut }
        ensures current { self.new.halves.current.now ≡ self.old.halves.current.now }
        ensures synced { self.new.halves.synced.now ≡ self.old.halves.synced.now }
        ensures on { self.new.on ≡ self.old.on }
        ensures origin { self.new.origin ≡ self.old.origin }
    {
        self.cut = Some(told(call, kept)?);
        Ok(())
    }

    /// Counts a call, and tells what is kept if power is to fail at it; refused while power is off.
    // Tried with a closure for the whole call: only the read stuck, where a proof does not learn what the closure left in its
    // buffer. The six other calls with the closure, and the read without, would be no plainer.
    fn begin(&mut self, call: CardCall) -> Result<Option<Kept>, CardFault>
        ensures powered { MatchResult result (λ lost. (self.old.on ≡ true) × (lost ≡ lost_now self.old.cut) × (self.new.on ≡ still_on lost)) (λ fault. (self.old.on ≡ false) × (self.new.on ≡ false) × (fault ≡ record { cause = Power; call = call; origin = self.old.origin })) }
        ensures counted { self.new.cut ≡ next_cut self.old.cut }
        ensures halves { self.new.halves ≡ self.old.halves }
        ensures origin { self.new.origin ≡ self.old.origin }
    {
        let lost = at_call(self.cut);
        self.cut = after_call(self.cut);
        if !self.on {
            return blame(Err(Cause::Power), call, self.origin);
        }
        self.on = lost.is_none();
        Ok(lost)
    }
}

#[tactic(auto, using(crate::proofs::Delays::delayed_answered))]
impl<'a> Card for DelayedCard<'a> {
    ghost meaning = { delayed };

    ghost lawful = { Prim.search rules };

    fn length(&mut self, name: &[u8]) -> Result<Option<u32>, CardFault>
        ensures answered { Answered delayed self.old name.now length_of result self.new }
        ensures told { ToldLength (delayed.holds self.old name.now) result }
        ensures delayed { Delayed length_of name.now self.old result self.new }
    {
        let lost = self.begin(CardCall::Length)?;
        let answer = cut_calls::length(&mut self.halves, lost, name);
        blame(answer, CardCall::Length, self.origin)
    }

    fn read(&mut self, name: &[u8], place: u32, buffer: &mut [u8]) -> Result<(), CardFault>
        ensures answered { Answered delayed self.old name.now (reading place (count buffer.old)) result self.new }
        ensures told { ToldBytes (delayed.holds self.old name.now) place buffer.old result buffer.new }
        ensures delayed { Delayed (reading place (count buffer.old)) name.now self.old result self.new }
    {
        let lost = self.begin(CardCall::Read)?;
        let answer = cut_calls::read(&mut self.halves, lost, name, place, buffer);
        blame(answer, CardCall::Read, self.origin)
    }

    fn create(&mut self, name: &[u8]) -> Result<(), CardFault>
        ensures answered { Answered delayed self.old name.now creating result self.new }
        ensures delayed { Delayed creating name.now self.old result self.new }
    {
        let lost = self.begin(CardCall::Create)?;
        let answer = cut_calls::create(&mut self.halves, lost, name);
        blame(answer, CardCall::Create, self.origin)
    }

    fn write(&mut self, name: &[u8], place: u32, bytes: &[u8]) -> Result<(), CardFault>
        ensures answered { Answered delayed self.old name.now (writing place bytes.now) result self.new }
        ensures delayed { Delayed (writing place bytes.now) name.now self.old result self.new }
    {
        let lost = self.begin(CardCall::Write)?;
        let answer = cut_calls::write(&mut self.halves, lost, name, place, bytes);
        blame(answer, CardCall::Write, self.origin)
    }

    fn set_length(&mut self, name: &[u8], length: u32) -> Result<(), CardFault>
        ensures answered { Answered delayed self.old name.now (set_length length) result self.new }
        ensures delayed { Delayed (set_length length) name.now self.old result self.new }
    {
        let lost = self.begin(CardCall::SetLength)?;
        let answer = cut_calls::set_length(&mut self.halves, lost, name, length);
        blame(answer, CardCall::SetLength, self.origin)
    }

    fn sync(&mut self, name: &[u8]) -> Result<(), CardFault>
        ensures answered { Answered delayed self.old name.now syncing result self.new }
        ensures delayed { Delayed syncing name.now self.old result self.new }
    {
        let lost = self.begin(CardCall::Sync)?;
        let answer = cut_calls::sync(&mut self.halves, lost, name);
        blame(answer, CardCall::Sync, self.origin)
    }

    fn delete(&mut self, name: &[u8]) -> Result<(), CardFault>
        ensures answered { Answered delayed self.old name.now deleting result self.new }
        ensures delayed { Delayed deleting name.now self.old result self.new }
    {
        let lost = self.begin(CardCall::Delete)?;
        let answer = cut_calls::delete(&mut self.halves, lost, name);
        blame(answer, CardCall::Delete, self.origin)
    }

    fn power(&mut self)
        ensures switched { Switched delayed self.old self.new }
        ensures cut { self.new.cut ≡ self.old.cut }
        ensures origin { self.new.origin ≡ self.old.origin }
    {
        self.on = true;
    }

    fn powered(&self) -> bool {
        self.on
    }
}
