// What a power failure keeps of the file in a slot of an image in two halves.
ghost use Rattle.std.specs.Prelude.{◌≡◌, ℕ, ◌+◌, ◌-◌, ◌*◌, ◌/◌, ◌%◌, ◌^◌, ◌<◌, ◌≤◌, max, length as count, take, ◌≢◌, nat_lt, slice_index};
ghost use Rattle.image.specs.Layout.{content};
ghost use Rattle.halves.specs.Halves.{mixed, kept_content};

use crate::kept::Kept;
use image::{FILE_LENGTH, HEAD, content, resize};

// `head` and `same` are asked twice, and no struct has the two slots: its methods would take both out again, as in `image`.

/// Mixes the synced file into the current one, at the longer length.
fn mix(current: &mut [u8], synced: &[u8])
    requires head { 37 ≤ count current.old }
    requires same { count current.old ≡ count synced.now }
    ensures content { content current.new ≡ mixed (content current.old) (content synced.now) }
    ensures name { take 33 current.new ≡ take 33 current.old }
{
    let file = content(synced);
    let length = file.len().max(content(current).len());
    resize(current, length);
    for (place, byte) in current[HEAD..HEAD + length].iter_mut().enumerate() {
        if place % 2 == 1 {
            *byte = file.get(place).copied().unwrap_or(0);
        }
    }
}

/// Gives the current slot what is kept of its file.
pub(crate) fn choose(current: &mut [u8], synced: &[u8], choice: Kept)
    requires head { 37 ≤ count current.old }
    requires same { count current.old ≡ count synced.now }
    ensures content { content current.new ≡ kept_content choice (content current.old) (content synced.now) }
    ensures name { take 33 current.new ≡ take 33 current.old }
{
    match choice {
        Kept::Synced => current[FILE_LENGTH..].copy_from_slice(&synced[FILE_LENGTH..]),
        Kept::Current => {}
        Kept::Mixed => mix(current, synced),
    }
}
