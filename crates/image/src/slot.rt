// One slot of an image: the name, its length, the file's length, and the file's bytes.
ghost use Rattle.std.specs.Prelude.{◌≡◌, ℕ, ◌+◌, ◌-◌, ◌*◌, ◌^◌, ◌<◌, ◌≤◌, true, false, List, [], length as count, take, drop};
ghost use Rattle.std.specs.Str.{bytes_eq};
ghost use Rattle.card.specs.Calls.{part, overwrite as overwritten, resized};
ghost use Rattle.card.specs.Numbers.{number_at};
ghost use Rattle.image.specs.Layout.{free, named, content};

use card::is_name;

/// The bytes of a slot before the file's: 32 for the name, 1 for its length, 4 for the file's length.
pub const HEAD: usize = 37;

/// Where the name's length stands.
const NAME_LENGTH: usize = 32;

/// Where the file's length stands.
pub const FILE_LENGTH: usize = 33;

/// Whether the slot is free for a file.
#[tactic(auto, unfolding(crate::specs::Layout::free))]
pub fn is_free(slot: &[u8]) -> bool
    ensures { result ≡ free slot.now }
{
    slot.len() >= HEAD && slot[NAME_LENGTH] == 0
}

/// Whether the slot has the file of that name.
pub fn is_named(slot: &[u8], name: &[u8]) -> bool
    ensures { result ≡ named name.now slot.now }
{
    is_name(name)
        && slot.len() >= HEAD
        && usize::from(slot[NAME_LENGTH]) == name.len()
        && slot[..name.len()] == name[..]
}

// `head` is asked by the functions that read or write the file's length, and no struct keeps it (tried): each method takes the
// bytes out first, and says `self.exit.0.now`.

/// The bytes of the file in the slot. For the crates of this repository: it wants a slot with its head.
pub fn content(slot: &[u8]) -> &[u8]
    requires { 37 ≤ count slot.now }
    ensures is { result.now ≡ content slot.now }
    ensures small { count result.now < 2 ^ 32 }
{
    let length = slot[FILE_LENGTH..].first_chunk::<4>().unwrap();
    // `as` here and below: no `From` leads from u32 to usize, nor down, and the check proves that no cast loses a bit.
    let stored = u32::from_be_bytes(*length) as usize;
    let room = &slot[HEAD..];
    &room[..stored.min(room.len())]
}

/// How many bytes the file in the slot has. For the crates of this repository: it wants a slot with its head.
pub fn file_length(slot: &[u8]) -> usize
    requires { 37 ≤ count slot.now }
    ensures is { result ≡ count (content slot.now) }
    ensures small { result < 2 ^ 32 }
{
    content(slot).len()
}

/// Writes down how many bytes the file has. For the crates of this repository: it wants a slot with its head.
// `small` and not a `u32`, here and below: the lengths come from slices, so `put_bytes` and the mix of two halves would cast
// theirs in this function's place, and `resize` would cast its own back.
pub fn put_length(slot: &mut [u8], length: usize)
    requires head { 37 ≤ count slot.old }
    requires small { length < 2 ^ 32 }
    ensures before { take 33 slot.new ≡ take 33 slot.old }
    ensures number { number_at slot.new 33 ≡ length }
    ensures after { drop 37 slot.new ≡ drop 37 slot.old }
{
    let bytes = (length as u32).to_be_bytes();
    slot[FILE_LENGTH..HEAD].copy_from_slice(&bytes);
}

/// Puts bytes into the file from a place on.
pub fn put_bytes(slot: &mut [u8], place: usize, bytes: &[u8])
    requires head { 37 ≤ count slot.old }
    requires inside { place ≤ count (content slot.old) }
    requires fits { 37 + place + count bytes.now ≤ count slot.old }
    requires small { place + count bytes.now < 2 ^ 32 }
    ensures content { content slot.new ≡ overwritten (content slot.old) place bytes.now }
    ensures name { take 33 slot.new ≡ take 33 slot.old }
{
    let old = file_length(slot);
    let at = HEAD + place;
    slot[at..at + bytes.len()].copy_from_slice(bytes);
    put_length(slot, old.max(place + bytes.len()));
}

/// Cuts the file, or fills it with zeros, to a length. For the crates of this repository: it wants a slot with its head.
pub fn resize(slot: &mut [u8], length: usize)
    requires fits { 37 + length ≤ count slot.old }
    requires small { length < 2 ^ 32 }
    ensures content { content slot.new ≡ resized (content slot.old) length }
    ensures name { take 33 slot.new ≡ take 33 slot.old }
{
    let kept = file_length(slot).min(length);
    slot[HEAD + kept..HEAD + length].fill(0);
    put_length(slot, length);
}

/// Gives the slot to a file of that name, empty as yet.
pub fn claim(slot: &mut [u8], name: &[u8])
    requires head { 37 ≤ count slot.old }
    requires some { 1 ≤ count name.now }
    requires short { count name.now ≤ 32 }
    ensures content { content slot.new ≡ [] }
    ensures named { (n : List ℕ) → named n slot.new ≡ bytes_eq name.now n }
    ensures taken { free slot.new ≡ false }
{
    slot[0..name.len()].copy_from_slice(name);
    slot[NAME_LENGTH] = name.len() as u8;
    put_length(slot, 0);
}

/// Frees the slot.
pub fn release(slot: &mut [u8])
    requires { 37 ≤ count slot.old }
    ensures { free slot.new ≡ true }
{
    slot[NAME_LENGTH] = 0;
}
