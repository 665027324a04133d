// The limits of a set's databases stand here: how many databases, how many pages each, and how long a
// page. Beside them where a page lies in its file, and a set of pages as a map of 4,096 bits.
#![tactic(auto)]

ghost use Rattle.std.specs.Prelude.{◌≡◌, ℕ, ◌-◌, ◌*◌, ◌/◌, ◌%◌, ◌≤◌, true, false, length, if◌then◌else◌, MatchOption, IfSome};
ghost use Rattle.page_map.specs.Sets.{is_page, including, without, counted, NoneAbove, NextAbove, VisitLaw};
ghost use Rattle.page_map.specs.Words.{pages_of};

mod pages;

pub use pages::Pages;

/// The most databases of a set.
pub const DATABASES: usize = 4;

/// The bytes of a page.
pub const PAGE: usize = 512;

/// The most pages of a database; the first page is 1.
pub const PAGE_LIMIT: u32 = 4096;

/// The words of a map.
const WORDS: usize = 64;

/// The bits of a word.
// pages and bits are u32, and places are usize: `as` goes between them here, since no From does
const BITS: u32 = 64;

/// Whether a database can have the page.
pub fn is_page(page: u32) -> bool
    ensures { result ≡ is_page page }
{
    (1..=PAGE_LIMIT).contains(&page)
}

/// Where a page begins in its file. For the crates of this repository: it wants a page that a database
/// can have.
// two clauses, not the word `is_page`: the callers have the two bounds apart, and their proofs give them so
pub fn page_place(page: u32) -> u32
    requires some { 1 ≤ page }
    requires small { page ≤ 4096 }
    ensures { result ≡ (page - 1) * 512 }
{
    (page - 1) * PAGE as u32
}

/// The word of a map in which a page has its bit, and which bit; none for a page that no database can have.
fn bit_of(page: u32) -> Option<(usize, u32)>
    ensures { MatchOption result (is_page page ≡ false) (λ at. (is_page page ≡ true) × (at.0 ≡ (page - 1) / 64) × (at.1 ≡ (page - 1) % 64)) }
{
    is_page(page).then(|| (((page - 1) / BITS) as usize, (page - 1) % BITS))
}

/// How many bits of a map's words are 1.
fn ones(words: &[u64]) -> u32
    requires { length words.now ≡ 64 }
    ensures { result ≡ counted (pages_of words.now) 4096 }
{
    words.iter().map(|w| w.count_ones()).sum()
}

/// A set of pages: page 1 is the lowest bit of the first word.
#[derive(Clone, Copy)]
pub struct PageMap {
    words: [u64; WORDS],
}

impl PageMap {
    /// The map with no page in it.
    pub fn new() -> PageMap
        ensures { (q : ℕ) → pages_of result.words q ≡ false }
    {
        PageMap { words: [0; WORDS] }
    }

    /// Whether the page is in.
    pub fn contains(&self, page: u32) -> bool
        ensures { result ≡ pages_of self.now.words page }
    {
        let Some((word, bit)) = bit_of(page) else {
            return false;
        };
        (self.words[word] >> bit) & 1 == 1
    }

    /// Puts the page in, if a database can have it.
    pub fn insert(&mut self, page: u32)
        ensures { (q : ℕ) → pages_of self.new.words q ≡ (if is_page page then including (pages_of self.old.words) page q else pages_of self.old.words q) }
    {
        if let Some((word, bit)) = bit_of(page) {
            self.words[word] |= 1 << bit;
        }
    }

    /// Takes the page out.
    pub fn remove(&mut self, page: u32)
        ensures { (q : ℕ) → pages_of self.new.words q ≡ without (pages_of self.old.words) page q }
    {
        if let Some((word, bit)) = bit_of(page) {
            self.words[word] &= !(1 << bit);
        }
    }

    /// How many pages are in.
    pub fn count(&self) -> u32
        ensures { result ≡ counted (pages_of self.now.words) 4096 }
    {
        ones(&self.words)
    }

    /// The least page above this one that is in. Asked from 0 on, and then from each answer, it
    /// visits each page of the map once and no other, in ascending order.
    pub fn next_above(&self, page: u32) -> Option<u32>
        ensures next { MatchOption result (NoneAbove (pages_of self.now.words) page) (λ p. NextAbove (pages_of self.now.words) page p) }
        ensures within { IfSome result (λ p. p ≤ 4096) }
        ensures visit { VisitLaw (pages_of self.now.words) }
    {
        if page >= PAGE_LIMIT {
            return None;
        }
        let i = (page / BITS) as usize;
        let first = self.words[i] >> (page % BITS);
        if first != 0 {
            return Some(page + first.trailing_zeros() + 1);
        }
        let j = i + 1 + self.words[i + 1..].iter().position(|w| *w != 0)?;
        Some(j as u32 * BITS + self.words[j].trailing_zeros() + 1)
    }

    /// Takes every page out.
    pub fn clear(&mut self)
        ensures { (q : ℕ) → pages_of self.new.words q ≡ false }
    {
        self.words = [0; WORDS];
    }
}
