// Files in an image: a slice of bytes in 16 equal slots, with a file in each slot that is not free.
//
// Each call on an image takes its name first for a search of the slots, tests it and then the file,
// and does the call's work. An image holds what its bytes say, so any bytes at all are an image.
#![tactic(auto)]

mod empty;
mod fault;
mod slot;
mod slots;

pub use empty::clear;
pub use fault::blame;
pub use slot::{FILE_LENGTH, HEAD, content, file_length, put_length, resize};
pub use slots::{
    SLOTS, at_slot, create, delete, find, length, present, read, set_length, slot_at, slot_size,
    start, sync, write,
};
