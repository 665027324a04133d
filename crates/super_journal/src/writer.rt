// The super-journal file, put into a caller's buffer.
ghost use Rattle.std.specs.Prelude.{◌≡◌, ℕ, ◌+◌, ◌*◌, ◌<◌, ◌≤◌, ◌^◌, sum_by, [], ◌∷◌, ◌++◌, take, length as count_of, Decides, MatchOption};
ghost use Rattle.card.specs.Calls.{overwrite};
ghost use Rattle.super_journal.specs.Super.{super_journal_bytes as names_bytes, LawfulNames, Plain};
ghost use Rattle.super_journal.specs.Written.{Named, texts};

use crate::reader::{NAME_COUNT_LIMIT, is_length};
use journal_writer::{Unfit, put_bytes, room};

/// Whether a name can stand in a super-journal: 1 to 32 bytes, none of them zero.
fn is_plain(name: &[u8]) -> bool
    ensures { Decides result (Plain name.now) }
{
    is_length(name.len()) && !name.contains(&0)
}

/// Whether a super-journal can have the names.
fn names_hold(names: &[&[u8]]) -> bool
    ensures { Decides result (LawfulNames (texts names.now)) }
{
    (1..=NAME_COUNT_LIMIT).contains(&names.len()) && names.iter().all(|name| is_plain(name))
}

/// How long the names are, each with its zero byte.
fn names_length(names: &[&[u8]]) -> usize
    requires { sum_by (λ n. count_of n.now + 1) names.now < 2 ^ 64 }
    ensures { result ≡ count_of (names_bytes (texts names.now)) }
{
    names.iter().map(|name| name.len() + 1).sum()
}

/// How long the super-journal of the names is; none if it cannot have them.
// No `then`: of what a closure that calls our own functions gives, the proof learns nothing (tried in `journal_writer`).
fn super_length(names: &[&[u8]]) -> Option<usize>
    ensures { MatchOption result (LawfulNames (texts names.now) → ⊥) (λ n. LawfulNames (texts names.now) × (n ≡ count_of (names_bytes (texts names.now)))) }
{
    if !names_hold(names) {
        return None;
    }
    Some(names_length(names))
}

/// Puts a name at a place, with the zero byte that ends it, and tells where it ends. For the crates of this
/// repository: it wants the room.
pub fn put_ended(buffer: &mut [u8], place: usize, name: &[u8]) -> usize
    requires { place + count_of name.now + 1 ≤ count_of buffer.old }
    ensures end { result ≡ place + count_of name.now + 1 }
    ensures put { buffer.new ≡ overwrite buffer.old place (name.now ++ (0 ∷ [])) }
    ensures front { take result buffer.new ≡ take place buffer.old ++ (name.now ++ (0 ∷ [])) }
{
    let end = place + name.len();
    put_bytes(buffer, place, name);
    put_bytes(buffer, end, &[0u8]);
    end + 1
}

/// Puts the names at the start of the buffer, each with a zero byte after it.
fn fill_names(buffer: &mut [u8], names: &[&[u8]])
    requires names { LawfulNames (texts names.now) }
    requires room { count_of (names_bytes (texts names.now)) ≤ count_of buffer.old }
    ensures { buffer.new ≡ overwrite buffer.old 0 (names_bytes (texts names.now)) }
{
    let mut end = 0;
    for name in names {
        end = put_ended(buffer, end, name);
    }
}

/// Fills the buffer with the super-journal of the names, and tells its length.
// The answer is no slice of the buffer. Tried: of a buffer that an answer lends a part of, a proof knows nothing
// afterwards, and the clause says what the buffer holds, and that the rest of the buffer is as it was.
pub fn put_names(buffer: &mut [u8], names: &[&[u8]]) -> Result<usize, Unfit>
    ensures { Named buffer.old (texts names.now) result buffer.new }
{
    let length = room(buffer, super_length(names))?;
    fill_names(buffer, names);
    Ok(length)
}
