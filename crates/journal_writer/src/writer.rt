// The parts of a journal, put into a caller's buffer. A journal is written with count 0: the count
// goes in apart, when all else is safe.
ghost use Rattle.std.specs.Prelude.{◌≡◌, ℕ, ◌+◌, ◌*◌, ◌<◌, ◌≤◌, true, false, ◌&&◌, length as count_bytes, Some, MatchResult};
ghost use Rattle.std.specs.Fn.{FnOnceTakesAtMut, FnOnceReturnsAtMut};
ghost use Rattle.card.specs.Calls.{overwrite};
ghost use Rattle.card.specs.Numbers.{number_bytes};
ghost use Rattle.journal.specs.Format.{header as header_bytes, record_bytes, super_bytes, Octets};
ghost use Rattle.journal.specs.Judged.{record_place as place_of, page_bytes};
ghost use Rattle.journal_writer.specs.Written.{Put, PutUpTo, NoRoom, size_lawful, record_lawful, name_lawful, count_lawful};

use card::is_name;
use journal::{
    BLANK, MAGIC, PAGE, RECORD, RECORD_LIMIT, SECTOR, SUPER_EXTRA, SUPER_PAGE, byte_sum, checksum,
    record_place,
};
use page_map::is_page;

/// Why a part of a journal was not put into a buffer, which is then as it was.
#[derive(Clone, Copy, PartialEq, Eq, Debug)]
pub enum Unfit {
    /// A number, a page or a name is out of the limits.
    Limit,
    /// The buffer ends before the part would.
    Room,
}

/// Puts bytes at a place. For the crates of this repository: it wants the room.
pub fn put_bytes(buffer: &mut [u8], place: usize, bytes: &[u8])
    requires { place + count_bytes bytes.now ≤ count_bytes buffer.old }
    ensures { buffer.new ≡ overwrite buffer.old place bytes.now }
{
    buffer[place..place + bytes.len()].copy_from_slice(bytes);
}

/// Puts a number at a place.
pub fn put_number(buffer: &mut [u8], place: usize, number: u32)
    requires { place + 4 ≤ count_bytes buffer.old }
    ensures { buffer.new ≡ overwrite buffer.old place (number_bytes number) }
{
    put_bytes(buffer, place, &number.to_be_bytes());
}

/// Fills the first sector with a header of count 0.
pub fn fill_header(buffer: &mut [u8], nonce: u32, size: u32)
    requires { 512 ≤ count_bytes buffer.old }
    ensures { buffer.new ≡ overwrite buffer.old 0 (header_bytes 0 nonce size) }
{
    put_bytes(buffer, 0, &BLANK);
    put_bytes(buffer, 0, &MAGIC);
    put_number(buffer, 12, nonce);
    put_number(buffer, 16, size);
    put_number(buffer, 20, SECTOR as u32);
    put_number(buffer, 24, PAGE as u32);
}

/// Where what is put into a buffer ends, if there is such an end, and room up to it. `None` stands for a part that is
/// out of the limits.
pub fn room(buffer: &[u8], end: Option<usize>) -> Result<usize, Unfit>
    ensures { MatchResult result (λ n. (end ≡ Some n) × (n ≤ count_bytes buffer.now)) (NoRoom (count_bytes buffer.now) end) }
{
    let end = end.ok_or(Unfit::Limit)?;
    if buffer.len() < end {
        return Err(Unfit::Room);
    }
    Ok(end)
}

/// Puts a part that ends at a place of the buffer, if there is such an end, and room up to it.
fn put<F: FnOnce(&mut [u8])>(buffer: &mut [u8], end: Option<usize>, work: F) -> Result<(), Unfit>
    requires { (n : ℕ) → end ≡ Some n → n ≤ count_bytes buffer.old → FnOnceTakesAtMut F.FnOnce work buffer.old }
    ensures { PutUpTo buffer.old end (FnOnceReturnsAtMut F.FnOnce work buffer.old tt buffer.new) result buffer.new }
{
    room(buffer, end)?;
    work(buffer);
    Ok(())
}

/// Whether a database may have so many pages.
pub fn is_size(size: u32) -> bool
    ensures { result ≡ size_lawful size }
{
    is_page(size)
}

/// Puts a header of count 0 at the start of the buffer.
pub fn put_header(buffer: &mut [u8], nonce: u32, size: u32) -> Result<(), Unfit>
    ensures { Put buffer.old 0 512 (header_bytes 0 nonce size) (size_lawful size) result buffer.new }
{
    let end = is_size(size).then_some(SECTOR);
    put(buffer, end, |buffer| fill_header(buffer, nonce, size))
}

/// Whether a record may have the index, from 0, the page number and the page.
fn is_record(index: u32, page: u32, bytes: &[u8]) -> bool
    ensures { result ≡ record_lawful index page bytes.now }
{
    index < RECORD_LIMIT && is_page(page) && bytes.len() == PAGE
}

/// Makes a record of the page that lies at its place.
pub fn seal_record(buffer: &mut [u8], index: u32, nonce: u32, page: u32)
    requires { 512 + 520 * index + 520 ≤ count_bytes buffer.old }
    ensures { buffer.new ≡ overwrite buffer.old (place_of index) (record_bytes nonce (record { page = page; bytes = page_bytes buffer.old index })) }
{
    let place = record_place(index);
    let sum = checksum(nonce, &buffer[place + 4..place + 4 + PAGE]);
    put_number(buffer, place, page);
    put_number(buffer, place + 4 + PAGE, sum);
}

/// Puts the record of a page at its place.
// The page is a slice: the public call that has tested its length takes one, and would have to unwrap an array.
fn fill_record(buffer: &mut [u8], index: u32, nonce: u32, page: u32, bytes: &[u8])
    requires room { 512 + 520 * index + 520 ≤ count_bytes buffer.old }
    requires whole { count_bytes bytes.now ≡ 512 }
    ensures { buffer.new ≡ overwrite buffer.old (place_of index) (record_bytes nonce (record { page = page; bytes = bytes.now })) }
{
    let place = record_place(index);
    put_bytes(buffer, place + 4, bytes);
    seal_record(buffer, index, nonce, page);
}

/// Puts the record of a page at its place, by its index from 0.
// Five parameters: a record is no value anywhere, and a struct for two calls would only name them again.
pub fn put_record(
    buffer: &mut [u8],
    index: u32,
    nonce: u32,
    page: u32,
    bytes: &[u8],
) -> Result<(), Unfit>
    ensures { Put buffer.old (place_of index) 520 (record_bytes nonce (record { page = page; bytes = bytes.now })) (record_lawful index page bytes.now) result buffer.new }
{
    let end = is_record(index, page, bytes).then_some(record_place(index) + RECORD);
    put(buffer, end, |buffer| {
        fill_record(buffer, index, nonce, page, bytes)
    })
}

/// Whether a super-journal record may stand past so many records, and have the name.
fn is_named(count: u32, name: &[u8]) -> bool
    ensures { result ≡ name_lawful count name.now }
{
    (1..=RECORD_LIMIT).contains(&count) && is_name(name)
}

/// Puts a super-journal record at a place.
pub fn fill_name(buffer: &mut [u8], place: usize, name: &[u8])
    requires room { place + 20 + count_bytes name.now ≤ count_bytes buffer.old }
    requires short { count_bytes name.now ≤ 32 }
    ensures put { buffer.new ≡ overwrite buffer.old place (super_bytes (Some name.now)) }
    ensures octets { Octets name.now }
{
    let n = name.len();
    put_number(buffer, place, SUPER_PAGE);
    put_bytes(buffer, place + 4, name);
    put_number(buffer, place + 4 + n, n as u32);
    put_number(buffer, place + 8 + n, byte_sum(name));
    put_bytes(buffer, place + 12 + n, &MAGIC);
}

/// Puts the super-journal record past so many page records.
pub fn put_name(buffer: &mut [u8], count: u32, name: &[u8]) -> Result<(), Unfit>
    ensures { Put buffer.old (place_of count) (20 + count_bytes name.now) (super_bytes (Some name.now)) (name_lawful count name.now) result buffer.new }
{
    let place = record_place(count);
    let end = is_named(count, name).then_some(place + SUPER_EXTRA + name.len());
    put(buffer, end, |buffer| fill_name(buffer, place, name))
}

/// Puts the count into the header at the start of the buffer.
pub fn put_count(buffer: &mut [u8], count: u32) -> Result<(), Unfit>
    ensures { Put buffer.old 8 4 (number_bytes count) (count_lawful count) result buffer.new }
{
    let end = (count <= RECORD_LIMIT).then_some(12);
    put(buffer, end, |buffer| put_number(buffer, 8, count))
}
