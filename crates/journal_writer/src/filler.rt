// A whole journal around pages that lie in a buffer already, at the places of their records: what
// a store reads from its database before a commit goes straight there, and is not copied again.
ghost use Rattle.std.specs.Prelude.{◌≡◌, ℕ, ◌+◌, ◌*◌, ◌<◌, ◌≤◌, true, false, ◌&&◌, slice_index, length as count_bytes};
ghost use Rattle.std.specs.Bool.{then_some};
ghost use Rattle.card.specs.Calls.{overwrite};
ghost use Rattle.journal.specs.Format.{records_bytes, super_bytes};
ghost use Rattle.journal.specs.Judged.{record_place as place_of};
ghost use Rattle.journal_writer.specs.Written.{Filled, made_lawful, ascend, pages_lawful, given_lawful, told, originals};

use crate::writer::{Unfit, fill_header, fill_name, is_size, room, seal_record};
use card::is_name;
use journal::{RECORD_LIMIT, SUPER_EXTRA, record_place};

/// Whether each page is past the one before it, and none past the size.
fn ascends(pages: &[u32], size: u32) -> bool
    requires { 0 < slice_index pages.now 0 }
    ensures { result ≡ ascend size 0 pages.now }
{
    pages.is_sorted_by(|page, next| *page < *next) && pages.iter().all(|page| *page <= size)
}

/// Whether a journal may have the pages: the first is 1, each later one is past the one before it, none past the size.
fn pages_hold(pages: &[u32], size: u32) -> bool
    ensures { result ≡ pages_lawful size pages.now }
{
    pages.first() == Some(&1) && pages.len() <= RECORD_LIMIT as usize && ascends(pages, size)
}

/// Whether a journal may have the super-journal's name, or none.
fn name_holds(name: Option<&[u8]>) -> bool
    ensures { result ≡ given_lawful (told name.entry) }
{
    name.is_none_or(is_name)
}

/// Whether a journal may be made with the size, the pages and the name.
// The three go by themselves, here and below: the public call has them so, and a struct would add a type and its
// making for two calls inside this file.
fn is_made(size: u32, pages: &[u32], name: Option<&[u8]>) -> bool
    ensures { result ≡ made_lawful size pages.now (told name.entry) }
{
    is_size(size) && pages_hold(pages, size) && name_holds(name)
}

/// How long the super-journal record is, if there is one.
fn super_length(name: Option<&[u8]>) -> usize
    requires { given_lawful (told name) ≡ true }
    ensures { result ≡ count_bytes (super_bytes (told name.entry)) }
{
    name.map_or(0, |name| SUPER_EXTRA + name.len())
}

/// Makes records of the pages that lie at their places.
fn seal_records(buffer: &mut [u8], nonce: u32, pages: &[u32])
    requires few { count_bytes pages.now ≤ 33 }
    requires room { 512 + 520 * count_bytes pages.now ≤ count_bytes buffer.old }
    ensures { buffer.new ≡ overwrite buffer.old 512 (records_bytes nonce (originals buffer.old 0 pages.now)) }
{
    for (index, page) in pages.iter().enumerate() {
        seal_record(buffer, index as u32, nonce, *page);
    }
}

/// How long the journal of the size, the pages and the name is; none if it may not be made.
// No `then`. Tried: of what a closure that calls our own functions gives, the proof learns nothing, unless the
// closure has a clause of its own, which would say the sum once more.
fn journal_length(size: u32, pages: &[u32], name: Option<&[u8]>) -> Option<usize>
    ensures { result ≡ then_some (made_lawful size pages.now (told name.entry)) (place_of (count_bytes pages.now) + count_bytes (super_bytes (told name.entry))) }
{
    if !is_made(size, pages, name) {
        return None;
    }
    Some(record_place(pages.len() as u32) + super_length(name))
}

/// Fills the buffer with a journal of count 0 around the pages that lie in it, and tells the journal's length.
// The answer is no slice of the buffer. Tried: of a buffer that an answer lends a part of, a proof knows nothing
// afterwards, and the clause says what the buffer holds, and that the rest of the buffer is as it was.
pub fn fill_journal(
    buffer: &mut [u8],
    nonce: u32,
    size: u32,
    pages: &[u32],
    name: Option<&[u8]>,
) -> Result<usize, Unfit>
    ensures { Filled buffer.old nonce size pages.now (told name.entry) result buffer.new }
{
    let length = room(buffer, journal_length(size, pages, name))?;
    fill_header(buffer, nonce, size);
    seal_records(buffer, nonce, pages);
    if let Some(name) = name {
        fill_name(buffer, record_place(pages.len() as u32), name);
    }
    Ok(length)
}
