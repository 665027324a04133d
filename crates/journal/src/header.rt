// The header of a journal: one sector, of which all past the numbers is zero.
ghost use Rattle.std.specs.Prelude.{◌≡◌, ℕ, ◌+◌, ◌*◌, ◌<◌, ◌≤◌, true, false, ◌&&◌, ◌||◌, length as count_bytes, drop, replicate, MatchOption, ◌==◌, nat_le};
ghost use Rattle.std.specs.Str.{bytes_eq};
ghost use Rattle.card.specs.Numbers.{number_at};
ghost use Rattle.journal.specs.Judged.{spent, header_right, length_fits};
ghost use Rattle.journal.specs.Fronts.{Reads, Apart, front_right};

use crate::layout::{RECORD_LIMIT, SECTOR, SUPER_EXTRA, has_magic, is_blank, number, record_place};
use card::NAME_LIMIT;
use page_map::{PAGE, is_page};

/// The numbers of a right header that journals differ in.
#[derive(Clone, Copy)]
pub struct Header {
    pub count: u32,
    pub nonce: u32,
    pub size: u32,
}

/// A header sector taken apart, past its magic.
#[derive(Drop)]
pub struct Front<'a> {
    pub header: Header,
    pub sector: u32,
    pub page: u32,
    pub padding: &'a [u8],
}

/// Whether the journal is spent: shorter than a header, without the magic, or with count 0.
#[tactic(auto, using(std::proofs::lemmas::Bool::Decides::nat_tests), unfolding(crate::specs::Judged::spent))]
pub fn is_spent(bytes: &[u8]) -> bool
    ensures { result ≡ spent bytes.now }
{
    bytes.len() < SECTOR || !has_magic(bytes) || number(bytes, 8) == 0
}

/// The parts of a header sector past its magic. A slice pattern, with the rest as padding: the project asks for that form.
fn take_apart(bytes: &[u8]) -> Front<'_>
    requires { 28 ≤ count_bytes bytes.now }
    ensures numbers { Apart bytes.now result.header result.sector result.page }
    ensures padding { result.padding.now ≡ drop 28 bytes.now }
{
    let [
        _,
        _,
        _,
        _,
        _,
        _,
        _,
        _,
        c0,
        c1,
        c2,
        c3,
        n0,
        n1,
        n2,
        n3,
        z0,
        z1,
        z2,
        z3,
        t0,
        t1,
        t2,
        t3,
        p0,
        p1,
        p2,
        p3,
        padding @ ..,
    ] = bytes
    else {
        unreachable()
    };
    Front {
        header: Header {
            count: u32::from_be_bytes([*c0, *c1, *c2, *c3]),
            nonce: u32::from_be_bytes([*n0, *n1, *n2, *n3]),
            size: u32::from_be_bytes([*z0, *z1, *z2, *z3]),
        },
        sector: u32::from_be_bytes([*t0, *t1, *t2, *t3]),
        page: u32::from_be_bytes([*p0, *p1, *p2, *p3]),
        padding,
    }
}

impl Front<'_> {
    /// Whether the numbers are within the limits and the padding is zero.
    fn holds(&self) -> bool
        ensures { result ≡ front_right self.now.header.count self.now.header.size self.now.sector self.now.page self.now.padding.now }
    {
        self.header.count <= RECORD_LIMIT
            && is_page(self.header.size)
            && self.sector as usize == SECTOR
            && self.page as usize == PAGE
            && is_blank(self.padding)
    }
}

/// The numbers of a right header; none of a wrong one.
pub fn read_header(bytes: &[u8]) -> Option<Header>
    requires { 512 ≤ count_bytes bytes.now }
    ensures { MatchOption result (header_right bytes.now ≡ false) (λ h. (header_right bytes.now ≡ true) × Reads bytes.now h) }
{
    let front = take_apart(&bytes[..SECTOR]);
    front.holds().then_some(front.header)
}

/// Whether nothing is past the records, or as much as a super-journal record can be.
pub fn length_holds(length: usize, count: u32) -> bool
    ensures { result ≡ length_fits count length }
{
    let end = record_place(count);
    length == end || (end + SUPER_EXTRA + 1..=end + SUPER_EXTRA + NAME_LIMIT).contains(&length)
}
