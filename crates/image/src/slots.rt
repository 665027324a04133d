// The files of an image: 16 equal slots, and each call's work on them.
ghost use Rattle.std.specs.Prelude.{◌≡◌, ℕ, ◌+◌, ◌-◌, ◌*◌, ◌/◌, ◌^◌, ◌<◌, ◌≤◌, true, false, leb, List, [], length as count, IfOk, if◌then◌else◌, Some, None, nat_le};
ghost use Rattle.std.specs.Fn.{FnOnceTakesAtMut, FnOnceReturnsAtMut};
ghost use Rattle.card.specs.declared.fault.Cause.TheVariants.{Absent, Range};
ghost use Rattle.card.specs.Calls.{after_name, name_ok, length_told};
ghost use Rattle.card.specs.Calls.Op.{length_of, read as reading, create as creating, write as writing, set_length, sync as syncing, delete as deleting};
ghost use Rattle.image.specs.Layout.{FirstSlot, slot as slot_of, slot_size, named, free, held, content, room as room_of};
ghost use Rattle.image.specs.Stored.{Stored, PresentAt, ReadInto, Freed, SlotDone};

use crate::slot;
use crate::slot::HEAD;
use card::{Cause, FILE_LIMIT, is_name};
use std::ops::Range;

/// The slots of an image.
pub const SLOTS: usize = 16;

/// The bytes of a slot of the image.
pub fn slot_size(image: &[u8]) -> usize
    ensures { result ≡ slot_size image.now }
{
    image.len() / SLOTS
}

// `k < 16` is asked of callers: loops and searches over `0..SLOTS` give plain numbers, which a type would be made from each time.

/// Where a slot of the image begins. For the crates of this repository: it wants one of the 16.
pub fn start(image: &[u8], k: usize) -> usize
    requires { k < 16 }
    ensures is { result ≡ k * (count image.now / 16) }
    ensures within { result + count image.now / 16 ≤ count image.now }
{
    k * slot_size(image)
}

/// The bounds of a slot of the image.
fn bounds(image: &[u8], k: usize) -> Range<usize>
    requires { k < 16 }
    ensures start { result.start ≡ k * (count image.now / 16) }
    ensures end { result.end ≡ result.start + count image.now / 16 }
    ensures within { result.end ≤ count image.now }
{
    let start = start(image, k);
    start..start + slot_size(image)
}

/// A slot of the image. For the crates of this repository: it wants one of the 16.
#[tactic(auto, using(crate::proofs::Slices::slot_part))]
pub fn slot_at(image: &[u8], k: usize) -> &[u8]
    requires { k < 16 }
    ensures is { result.now ≡ slot_of image.now k }
    ensures long { count result.now ≡ count image.now / 16 }
{
    &image[bounds(image, k)]
}

/// Does some work on a slot of the image. For the crates of this repository: it wants one of the 16.
pub fn at_slot<F: FnOnce(&mut [u8])>(image: &mut [u8], k: usize, work: F)
    requires within { k < 16 }
    requires callable { FnOnceTakesAtMut F.FnOnce work (slot_of image.old k) }
    ensures { SlotDone (FnOnceReturnsAtMut F.FnOnce work) k image.old image.new }
{
    let slot = bounds(image, k);
    work(&mut image[slot]);
}

/// The first slot that has the file of that name.
pub fn find(image: &[u8], name: &[u8]) -> Option<usize>
    ensures { FirstSlot (named name.now) image.now result }
{
    (0..SLOTS).find(|k| slot::is_named(slot_at(image, *k), name))
}

/// The first free slot.
fn find_free(image: &[u8]) -> Option<usize>
    ensures { FirstSlot free image.now result }
{
    (0..SLOTS).find(|k| slot::is_free(slot_at(image, *k)))
}

/// The slot of a present file, or why there is none.
pub fn present(image: &[u8], name: &[u8]) -> Result<usize, Cause>
    ensures { PresentAt name.now image.now result }
{
    find(image, name).ok_or_else(|| if is_name(name) {
        Cause::Absent
    } else {
        Cause::Range
    })
}

/// Whether so many bytes from a place on end within a limit.
fn ends_within(place: u32, bytes: usize, limit: usize) -> bool
    ensures { result ≡ nat_le (place + bytes) limit }
{
    // `as` here and below, as in a slot: no `From` leads from u32 to usize, nor down.
    bytes <= limit && place as usize <= limit - bytes
}

/// Whether bytes may be written at a place of a file, by its length and the limit of any file.
fn may_write(length: usize, place: u32, bytes: usize) -> bool
    ensures { result ≡ (if leb place length then nat_le (place + bytes) 2097152 else false) }
{
    place as usize <= length && ends_within(place, bytes, FILE_LIMIT)
}

/// The bytes that a file of the image may have.
fn room(image: &[u8]) -> usize
    ensures { result ≡ room_of image.now }
{
    slot_size(image).saturating_sub(HEAD)
}

/// How many bytes the file has; none if it is absent.
pub fn length(image: &mut [u8], name: &[u8]) -> Result<Option<u32>, Cause>
    ensures stored { Stored length_of name.now image.old result image.new }
    ensures told { IfOk result (λ told. told ≡ length_told (held image.old name.now)) }
{
    if !is_name(name) {
        return Err(Cause::Range);
    }
    Ok(find(image, name).map(|k| slot::content(slot_at(image, k)).len() as u32))
}

/// Fills the buffer with the file's bytes from a place on.
pub fn read(image: &mut [u8], name: &[u8], place: u32, buffer: &mut [u8]) -> Result<(), Cause>
    ensures stored { Stored (reading place (count buffer.old)) name.now image.old result image.new }
    ensures told { ReadInto (held image.old name.now) place buffer.old result buffer.new }
{
    let k = present(image, name)?;
    let file = slot::content(slot_at(image, k));
    if !ends_within(place, buffer.len(), file.len()) {
        return Err(Cause::Range);
    }
    let from = place as usize;
    buffer.copy_from_slice(&file[from..from + buffer.len()]);
    Ok(())
}

/// Makes an empty file of that name.
pub fn create(image: &mut [u8], name: &[u8]) -> Result<(), Cause>
    ensures { Stored creating name.now image.old result image.new }
{
    if !is_name(name) {
        return Err(Cause::Range);
    }
    if find(image, name).is_some() {
        return Err(Cause::Present);
    }
    let k = find_free(image).ok_or(Cause::Device)?;
    at_slot(image, k, |slot| slot::claim(slot, name));
    Ok(())
}

/// Puts bytes into the file from a place on.
pub fn write(image: &mut [u8], name: &[u8], place: u32, bytes: &[u8]) -> Result<(), Cause>
    ensures { Stored (writing place bytes.now) name.now image.old result image.new }
{
    let k = present(image, name)?;
    if !may_write(slot::content(slot_at(image, k)).len(), place, bytes.len()) {
        return Err(Cause::Range);
    }
    if !ends_within(place, bytes.len(), room(image)) {
        return Err(Cause::Device);
    }
    at_slot(
        image,
        k,
        |slot| slot::put_bytes(slot, place as usize, bytes),
    );
    Ok(())
}

/// Cuts the file, or fills it with zeros, to a length.
pub fn set_length(image: &mut [u8], name: &[u8], length: u32) -> Result<(), Cause>
    ensures { Stored (set_length length) name.now image.old result image.new }
{
    let k = present(image, name)?;
    let length = length as usize;
    if length > FILE_LIMIT {
        return Err(Cause::Range);
    }
    if length > room(image) {
        return Err(Cause::Device);
    }
    at_slot(image, k, |slot| slot::resize(slot, length));
    Ok(())
}

/// Tells whether the file can be synced: every change of an image is in it at once.
pub fn sync(image: &mut [u8], name: &[u8]) -> Result<(), Cause>
    ensures { Stored syncing name.now image.old result image.new }
{
    present(image, name)?;
    Ok(())
}

/// Frees every slot that has the name; an image that was made empty has one at most.
fn free_all(image: &mut [u8], name: &[u8])
    ensures { Freed (named name.now) image.old image.new }
{
    while let Some(k) = find(image, name) {
        at_slot(image, k, slot::release);
    }
}

/// Makes a present file absent.
pub fn delete(image: &mut [u8], name: &[u8]) -> Result<(), Cause>
    ensures { Stored deleting name.now image.old result image.new }
{
    present(image, name)?;
    free_all(image, name);
    Ok(())
}
