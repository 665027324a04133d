// The sizes and limits of a journal, its magic, its blank sector, and numbers in bytes.
ghost use Rattle.std.specs.Prelude.{◌≡◌, ℕ, ◌+◌, ◌*◌, ◌^◌, ◌<◌, ◌≤◌, length as count, take, replicate};
ghost use Rattle.std.specs.Str.{bytes_eq};
ghost use Rattle.card.specs.Numbers.{number_at};
ghost use Rattle.journal.specs.Format.{checksum as checksum_of, magic};

/// The bytes of a sector, and so of a header.
pub const SECTOR: usize = 512;

/// The bytes of a page record: the page's number, the page, the checksum.
pub const RECORD: usize = 520;

/// The most records that a journal has.
pub const RECORD_LIMIT: u32 = 33;

/// The number that stands where a page's would, before the super-journal's name.
pub const SUPER_PAGE: u32 = 2_097_153;

/// The bytes of a super-journal record beside the name.
pub const SUPER_EXTRA: usize = 20;

/// What a journal begins with, and a super-journal record ends with.
pub const MAGIC: [u8; 8] = [0xd9, 0xd5, 0x05, 0xf9, 0x20, 0xa1, 0x63, 0xd7];

/// A sector of zeros, from which a header has its padding.
pub const BLANK: [u8; SECTOR] = [0u8; SECTOR];

/// The number at a place.
pub fn number(bytes: &[u8], place: usize) -> u32
    requires { place + 4 ≤ count bytes.now }
    ensures { result ≡ number_at bytes.now place }
{
    u32::from_be_bytes(*bytes[place..].first_chunk().unwrap())
}

/// The checksum of a page under a nonce. For the crates of this repository: it wants a whole page.
// A slice, not an array: its callers cut the page out of a longer slice, and each would have to unwrap an array.
pub fn checksum(nonce: u32, page: &[u8]) -> u32
    requires { count page.now ≡ 512 }
    ensures { result ≡ checksum_of nonce page.now }
{
    nonce.wrapping_add(u32::from(page[312]) + u32::from(page[112]))
}

/// Where the record of an index lies, from 0, or where so many records end.
pub fn record_place(index: u32) -> usize
    ensures { result ≡ 512 + 520 * index }
{
    SECTOR + RECORD * index as usize
}

/// Whether the bytes begin with the magic.
pub fn has_magic(bytes: &[u8]) -> bool
    ensures { result ≡ bytes_eq magic (take 8 bytes.now) }
{
    bytes.starts_with(&MAGIC)
}

/// Whether the padding of a header is zero.
pub fn is_blank(padding: &[u8]) -> bool
    ensures { result ≡ bytes_eq padding.now (replicate 484 0) }
{
    padding == &BLANK[28..]
}
