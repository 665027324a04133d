// An image with no file.
ghost use Rattle.image.specs.Stored.{Empty};

use crate::slot;
use crate::slot::HEAD;
use crate::slots::{SLOTS, at_slot, slot_size};

/// Makes an image with no file in it. The bytes of its slots stay, but for the one by which a slot is free.
pub fn clear(image: &mut [u8])
    ensures { Empty image.new }
{
    if slot_size(image) < HEAD {
        return;
    }
    for k in 0..SLOTS {
        at_slot(image, k, slot::release);
    }
}
