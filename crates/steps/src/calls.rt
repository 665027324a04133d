// The calls of a card, each from a site; what each takes beside the site is what the card's own call takes.
#![tactic(auto, using(crate::proofs::Went::went_one, crate::proofs::Went::told_length, crate::proofs::Went::told_bytes))]

ghost use Rattle.std.specs.Prelude.{◌≡◌, [], ◌∷◌, length as count};
ghost use Rattle.card.specs.Calls.Op.{length_of, read as reads, create as creates, write as writes, set_length, sync as syncs, delete as deletes};
ghost use Rattle.steps.specs.Tasks.{Went, task, ToldLength, ToldBytes};

use crate::site::Site;
use card::Card;
use refusal::SetFault;

impl Site {
    /// How many bytes the file holds, or none if it is absent.
    pub fn length<C: Card>(self, card: &mut C, name: &[u8]) -> Result<Option<u32>, SetFault>
        ensures went { Went C.Card.meaning (task self name.now length_of ∷ []) card.old result card.new }
        ensures told { ToldLength (C.Card.meaning.holds card.old name.now) result }
    {
        self.told_card(card.length(name))
    }

    /// Fills the buffer with the file's bytes from a place on; a refused read leaves it.
    pub fn read<C: Card>(
        self,
        card: &mut C,
        name: &[u8],
        place: u32,
        buffer: &mut [u8],
    ) -> Result<(), SetFault>
        ensures went { Went C.Card.meaning (task self name.now (reads place (count buffer.old)) ∷ []) card.old result card.new }
        ensures told { ToldBytes (C.Card.meaning.holds card.old name.now) place buffer.old result buffer.new }
    {
        self.told_card(card.read(name, place, buffer))
    }

    /// Makes an absent file present and empty.
    pub fn create<C: Card>(self, card: &mut C, name: &[u8]) -> Result<(), SetFault>
        ensures { Went C.Card.meaning (task self name.now creates ∷ []) card.old result card.new }
    {
        self.told_card(card.create(name))
    }

    /// Puts bytes into the file at a place at or before its end.
    pub fn write<C: Card>(
        self,
        card: &mut C,
        name: &[u8],
        place: u32,
        bytes: &[u8],
    ) -> Result<(), SetFault>
        ensures { Went C.Card.meaning (task self name.now (writes place bytes.now) ∷ []) card.old result card.new }
    {
        self.told_card(card.write(name, place, bytes))
    }

    /// Cuts the file, or fills it with zeros, to a length.
    pub fn set_length<C: Card>(self, card: &mut C, name: &[u8], length: u32) -> Result<(), SetFault>
        ensures { Went C.Card.meaning (task self name.now (set_length length) ∷ []) card.old result card.new }
    {
        self.told_card(card.set_length(name, length))
    }

    /// Leaves only what the file holds now as what may remain of it.
    pub fn sync<C: Card>(self, card: &mut C, name: &[u8]) -> Result<(), SetFault>
        ensures { Went C.Card.meaning (task self name.now syncs ∷ []) card.old result card.new }
    {
        self.told_card(card.sync(name))
    }

    /// Makes a present file absent.
    pub fn delete<C: Card>(self, card: &mut C, name: &[u8]) -> Result<(), SetFault>
        ensures { Went C.Card.meaning (task self name.now deletes ∷ []) card.old result card.new }
    {
        self.told_card(card.delete(name))
    }
}
