// The tests of a list of names.
ghost use Rattle.std.specs.Prelude.{◌≡◌, ℕ, ◌≤◌, true, length as count, Decides, MatchOption, MatchResult};
ghost use Rattle.names.specs.Names.{Each, length_ok, printable, bytes_ok, is_file, file_name, Alike, listed, texts};
ghost use Rattle.names.specs.Files.{names_in, names_of};
ghost use Rattle.names.specs.Examples.{Examples};
ghost use Rattle.names.specs.Refused.{Refused, Checked, FirstBad};

use crate::file::FILES;
use crate::names::{NAME_LIMIT, NameList, Names};
use few::Few;
use page_map::DATABASES;
use refusal::Refusal;

/// Whether a name has 1 to 24 bytes.
fn is_short(name: &[u8]) -> bool
    ensures { result ≡ length_ok name.now }
{
    (1..=NAME_LIMIT).contains(&name.len())
}

/// Whether a byte may stand in a name.
fn is_printable(b: u8) -> bool
    ensures { result ≡ printable b }
{
    (b' '..=b'~').contains(&b)
}

/// Whether each byte of a name is printable.
fn is_plain(name: &[u8]) -> bool
    ensures { result ≡ bytes_ok name.now }
{
    name.iter().all(|b| is_printable(*b))
}

/// The first name of a wrong length.
fn first_long(list: &[&[u8]]) -> Option<usize>
    ensures { MatchOption result (Each length_ok (texts list.now)) (λ i. FirstBad length_ok (texts list.now) i) }
{
    list.iter().position(|name| !is_short(name))
}

/// The first name with a byte that is not printable.
fn first_odd(list: &[&[u8]]) -> Option<usize>
    ensures { MatchOption result (Each bytes_ok (texts list.now)) (λ i. FirstBad bytes_ok (texts list.now) i) }
{
    list.iter().position(|name| !is_plain(name))
}

impl NameList {
    /// The names in fixed memory.
    fn copied(list: &[&[u8]]) -> NameList
        requires some { 1 ≤ count list.now }
        requires few { count list.now ≤ 4 }
        requires short { Each length_ok (texts list.now) }
        ensures { names_in result ≡ texts list.now }
    {
        let mut names = Few::new();
        for name in list {
            names.push(Few::from_slice(name));
        }
        NameList { names }
    }

    /// Whether an earlier file has the name of this one.
    fn is_taken(&self, file: usize) -> bool
        ensures { Decides result ((j : ℕ) × Alike (names_in self.now) j file) }
    {
        let Some(name) = self.name_of(file) else {
            return false;
        };
        (0..file).any(|j| self.has(j, name.bytes()))
    }

    /// Whether any two files have one name.
    fn has_twins(&self) -> bool
        ensures { Decides result ((j : ℕ) × ((k : ℕ) × Alike (names_in self.now) j k)) }
    {
        (0..FILES).any(|k| self.is_taken(k))
    }
}

/// Checks a list of names. The tests go in the order of their numbers: the count, each name's
/// length, each name's bytes, and that the names of all files differ.
// `using`: the examples are proved at each return alike, and so they have no proof file
#[tactic(auto, using(crate::proofs::Cases::examples))]
pub fn checked(list: &[&[u8]]) -> Result<Names, Refusal>
    ensures answer { MatchResult result (λ n. Checked (texts list.now) (names_of n)) (λ e. Refused e (texts list.now)) }
    ensures examples { Examples }
{
    if !(1..=DATABASES).contains(&list.len()) {
        return Err(Refusal::NameCount);
    }
    if let Some(i) = first_long(list) {
        return Err(Refusal::NameLength(i));
    }
    if let Some(i) = first_odd(list) {
        return Err(Refusal::NameByte(i));
    }
    let list = NameList::copied(list);
    if list.has_twins() {
        return Err(Refusal::NamesEqual);
    }
    Ok(Names { list })
}
