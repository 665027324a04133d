// The super-journal record, past the last page record.
ghost use Rattle.std.specs.Prelude.{◌≡◌, ℕ, ◌+◌, ◌*◌, ◌<◌, ◌≤◌, sum, length as count_bytes};
ghost use Rattle.journal.specs.Fronts.{super_right};

use crate::layout::{SUPER_EXTRA, SUPER_PAGE, has_magic, number};

/// The sum of a name's bytes. For the crates of this repository: it wants a name that is short enough.
pub fn byte_sum(name: &[u8]) -> u32
    requires { count_bytes name.now ≤ 32 }
    ensures { result ≡ sum name.now }
{
    name.iter().map(|b| u32::from(*b)).sum()
}

/// Whether the bytes are a super-journal record.
#[tactic(auto, using(std::proofs::lemmas::Bool::Decides::nat_tests), unfolding(crate::specs::Fronts::super_right))]
pub fn super_holds(bytes: &[u8]) -> bool
    requires long { 21 ≤ count_bytes bytes.now }
    requires short { count_bytes bytes.now ≤ 52 }
    ensures { result ≡ super_right bytes.now }
{
    let n = bytes.len() - SUPER_EXTRA;
    let sum = byte_sum(&bytes[4..4 + n]);
    number(bytes, 0) == SUPER_PAGE
        && number(bytes, 4 + n) as usize == n
        && number(bytes, 8 + n) == sum
        && has_magic(&bytes[12 + n..])
}
