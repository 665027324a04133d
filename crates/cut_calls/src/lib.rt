// The calls on the two halves of a card's image in which power may fail.
//
// Each call is told what a power failure in it keeps, if there is to be one: then the call is done, or
// left undone, the halves have what is kept, and the answer is power.
#![tactic(auto)]

ghost use Rattle.std.specs.Prelude.{◌≡◌, length as count, IfOk, Ok, Err};
ghost use Rattle.std.specs.Fn.{FnOnceReturnsAtMut};
ghost use Rattle.card.specs.Calls.{length_told};
ghost use Rattle.card.specs.Calls.Op.{length_of, read as reading, create as creating, write as writing, set_length, sync as syncing, delete as deleting};
ghost use Rattle.image.specs.Layout.{held};
ghost use Rattle.image.specs.Stored.{ReadInto};
ghost use Rattle.cut_calls.specs.Calls.{Call, Cut, Lose, is_undone};

use card::Cause;
use halves::{Halves, Kept};

// Not methods of a struct of `halves` and `lost`: what is lost is told for one call of the card, so the card would make the
// struct in each call and give it up at its end.

/// Loses power if that was told, and then answers so.
// Called where something is lost, and not in each call: it has the whole loss in it, and few calls are cut.
fn lose(halves: &mut Halves, lost: Option<Kept>) -> Result<(), Cause>
    ensures { Lose lost halves.old result halves.new }
{
    if let Some(kept) = lost {
        halves.keep(kept);
        return Err(Cause::Power);
    }
    Ok(())
}

/// Whether the call is left undone, since only what was synced is kept.
fn undone(lost: Option<Kept>) -> bool
    ensures { result ≡ is_undone lost }
{
    matches!(lost, Some(Kept::Synced))
}

/// Does a call's work, unless that is left undone, and then loses power if that was told.
fn cut<F: FnOnce(&mut Halves) -> Result<(), Cause>>(
    halves: &mut Halves,
    lost: Option<Kept>,
    work: F,
) -> Result<(), Cause>
    requires { F.IsAlwaysCallable work }
    ensures { Cut (FnOnceReturnsAtMut F.FnOnce work) lost halves.old result halves.new }
{
    if lost.is_none() {
        return work(halves);
    }
    if undone(lost) {
        return lose(halves, lost);
    }
    let _ = work(halves);
    lose(halves, lost)
}

/// Tells a length, unless power is lost; a look has no other work to do.
pub fn length(halves: &mut Halves, lost: Option<Kept>, name: &[u8]) -> Result<Option<u32>, Cause>
    ensures call { Call lost length_of name.now halves.old result halves.new }
    ensures told { IfOk result (λ told. told ≡ length_told (held halves.old.current.now name.now)) }
{
    if lost.is_some() {
        lose(halves, lost)?;
    }
    halves.length(name)
}

/// Reads, unless power is lost; a refused read leaves its buffer.
pub fn read(
    halves: &mut Halves,
    lost: Option<Kept>,
    name: &[u8],
    place: u32,
    buffer: &mut [u8],
) -> Result<(), Cause>
    ensures call { Call lost (reading place (count buffer.old)) name.now halves.old result halves.new }
    ensures told { ReadInto (held halves.old.current.now name.now) place buffer.old result buffer.new }
{
    if lost.is_some() {
        lose(halves, lost)?;
    }
    halves.read(name, place, buffer)
}

/// Makes an empty file.
pub fn create(halves: &mut Halves, lost: Option<Kept>, name: &[u8]) -> Result<(), Cause>
    ensures { Call lost creating name.now halves.old result halves.new }
{
    cut(halves, lost, |h| h.create(name))
}

/// Puts bytes into the file from a place on.
pub fn write(
    halves: &mut Halves,
    lost: Option<Kept>,
    name: &[u8],
    place: u32,
    bytes: &[u8],
) -> Result<(), Cause>
    ensures { Call lost (writing place bytes.now) name.now halves.old result halves.new }
{
    cut(halves, lost, |h| h.write(name, place, bytes))
}

/// Cuts the file, or fills it with zeros, to a length.
pub fn set_length(
    halves: &mut Halves,
    lost: Option<Kept>,
    name: &[u8],
    length: u32,
) -> Result<(), Cause>
    ensures { Call lost (set_length length) name.now halves.old result halves.new }
{
    cut(halves, lost, |h| h.set_length(name, length))
}

/// Makes what the file holds now what is surely kept of it.
pub fn sync(halves: &mut Halves, lost: Option<Kept>, name: &[u8]) -> Result<(), Cause>
    ensures { Call lost syncing name.now halves.old result halves.new }
{
    cut(halves, lost, |h| h.sync(name))
}

/// Makes a present file absent.
pub fn delete(halves: &mut Halves, lost: Option<Kept>, name: &[u8]) -> Result<(), Cause>
    ensures { Call lost deleting name.now halves.old result halves.new }
{
    cut(halves, lost, |h| h.delete(name))
}
