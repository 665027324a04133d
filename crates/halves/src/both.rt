// The two halves of an image, and each call's work on them.
ghost use Rattle.std.specs.Prelude.{◌≡◌, ℕ, ◌+◌, ◌-◌, ◌*◌, ◌/◌, ◌^◌, ◌<◌, ◌≤◌, List, [], length as count, Some, None, IfOk, ◌≢◌};
ghost use Rattle.card.specs.Calls.{length_told};
ghost use Rattle.card.specs.Calls.Op.{length_of, read as reading, create as creating, write as writing, set_length, sync as syncing, delete as deleting};
ghost use Rattle.image.specs.Layout.{held};
ghost use Rattle.image.specs.Stored.{Empty, ReadInto, PresentAt};
ghost use Rattle.halves.specs.Halves.{Settled, SlotKept, KeptAs};

use crate::kept::Kept;
use crate::loss::choose;
use card::Cause;
use image::{HEAD, SLOTS, at_slot, slot_at, slot_size};

/// An image in two halves of equal size: what its files hold now, and what is surely kept of them.
#[derive(Drop)]
pub struct Halves<'a> {
    current: &'a mut [u8],
    synced: &'a mut [u8],
    ghost equal: { count current.now ≡ count synced.now },
}

impl Halves<'_> {
    ghost use Rattle.halves.specs.Answers.{Answers};

    /// Makes the two halves of an image, the synced one first, with no file in them.
    pub fn new(image: &mut [u8]) -> Halves<'_>
        ensures current { Empty result.current.now }
        ensures synced { Empty result.synced.now }
        ensures size { (count result.current.now ≡ count image.old / 2) × (count result.synced.now ≡ count image.old / 2) }
    {
        let size = image.len() / 2;
        let (synced, rest) = image.split_at_mut(size);
        let (current, _) = rest.split_at_mut(size);
        image::clear(synced);
        image::clear(current);
        Halves { current, synced }
    }

    /// The slot of a present file, or why there is none.
    fn present(&self, name: &[u8]) -> Result<usize, Cause>
        ensures { PresentAt name.now self.now.current.now result }
    {
        image::present(self.current, name)
    }

    /// Copies a slot of the current half over the same slot of the synced half.
    fn settle(&mut self, k: usize)
        requires { k < 16 }
        ensures settled { Settled self.old.current.now self.old.synced.now k self.new.synced.now }
        ensures current { self.new.current.now ≡ self.old.current.now }
    {
        // Lent on first: of a field of `&mut self` that is passed as a shared slice, only its length stays known.
        let current = &mut *self.current;
        at_slot(
            self.synced,
            k,
            |slot| slot.copy_from_slice(slot_at(current, k)),
        );
    }

    /// Leaves what is kept of the file in a slot in both halves.
    fn keep_slot(&mut self, k: usize, choice: Kept)
        requires within { k < 16 }
        requires head { 37 ≤ count self.old.current.now / 16 }
        ensures { SlotKept choice k self.old.current.now self.old.synced.now self.new.current.now self.new.synced.now }
    {
        // Lent on first, as in `settle`.
        let synced = &mut *self.synced;
        at_slot(
            self.current,
            k,
            |slot| choose(slot, slot_at(synced, k), choice),
        );
        self.settle(k);
    }

    /// How many bytes the file has; none if it is absent.
    #[tactic(auto, using(crate::proofs::Backed::stored_paired))]
    pub fn length(&mut self, name: &[u8]) -> Result<Option<u32>, Cause>
        ensures paired { Answers length_of name.now self.old result self.new }
        ensures told { IfOk result (λ told. told ≡ length_told (held self.old.current.now name.now)) }
    {
        image::length(self.current, name)
    }

    /// Fills the buffer with the file's bytes from a place on.
    #[tactic(auto, using(crate::proofs::Backed::stored_paired))]
    pub fn read(&mut self, name: &[u8], place: u32, buffer: &mut [u8]) -> Result<(), Cause>
        ensures paired { Answers (reading place (count buffer.old)) name.now self.old result self.new }
        ensures told { ReadInto (held self.old.current.now name.now) place buffer.old result buffer.new }
    {
        image::read(self.current, name, place, buffer)
    }

    /// Makes an empty file in both halves.
    pub fn create(&mut self, name: &[u8]) -> Result<(), Cause>
        ensures { Answers creating name.now self.old result self.new }
    {
        image::create(self.current, name)?;
        if let Ok(made) = self.present(name) {
            self.settle(made);
        }
        Ok(())
    }

    /// Puts bytes into the file from a place on.
    #[tactic(auto, using(crate::proofs::Backed::stored_paired))]
    pub fn write(&mut self, name: &[u8], place: u32, bytes: &[u8]) -> Result<(), Cause>
        ensures { Answers (writing place bytes.now) name.now self.old result self.new }
    {
        image::write(self.current, name, place, bytes)
    }

    /// Cuts the file, or fills it with zeros, to a length.
    #[tactic(auto, using(crate::proofs::Backed::stored_paired))]
    pub fn set_length(&mut self, name: &[u8], length: u32) -> Result<(), Cause>
        ensures { Answers (set_length length) name.now self.old result self.new }
    {
        image::set_length(self.current, name, length)
    }

    /// Makes what the file holds now what is surely kept of it.
    pub fn sync(&mut self, name: &[u8]) -> Result<(), Cause>
        ensures { Answers syncing name.now self.old result self.new }
    {
        let changed = self.present(name)?;
        self.settle(changed);
        Ok(())
    }

    /// Makes a present file absent in both halves.
    pub fn delete(&mut self, name: &[u8]) -> Result<(), Cause>
        ensures { Answers deleting name.now self.old result self.new }
    {
        let freed = self.present(name)?;
        image::delete(self.current, name)?;
        self.settle(freed);
        Ok(())
    }

    /// Leaves what is kept of each file in both halves.
    pub fn keep(&mut self, choice: Kept)
        ensures { KeptAs choice self.old.current.now self.old.synced.now self.new.current.now self.new.synced.now }
    {
        // Lent on first, as in `settle`.
        let current = &mut *self.current;
        if slot_size(current) < HEAD {
            return;
        }
        // By number, not by chunks of both halves: what a half holds once its chunks were lent out is not known (tried).
        for k in 0..SLOTS {
            self.keep_slot(k, choice);
        }
    }
}
