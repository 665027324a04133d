// The parts of a sound journal, read in place. Each call may be given any bytes: what is not in them is not told.
ghost use Rattle.std.specs.Prelude.{◌≡◌, ℕ, ◌+◌, ◌*◌, ◌<◌, ◌≤◌, true, false, cond, length as count_bytes, Some, None, MatchOption};
ghost use Rattle.card.specs.Calls.{part};
ghost use Rattle.journal.specs.Format.{Journal, LawfulJournal, full};
ghost use Rattle.journal.specs.Judged.{Parts, record_place as place_of, page_of, page_bytes};
ghost use Rattle.journal.specs.Read.{has_record, within, lying, NumberTold, PageTold, NameTold};

use crate::layout::{RECORD, SUPER_EXTRA, number, record_place};
use crate::verdict::{Sound, Span};
use page_map::PAGE;

impl Span {
    /// What lies there, if the bytes have it.
    pub fn of<'a>(&self, bytes: &'a [u8]) -> Option<&'a [u8]>
        ensures { MatchOption result (within bytes.now self.now ≡ false) (λ p. (within bytes.now self.now ≡ true) × (p.now ≡ part bytes.now self.now.place self.now.length)) }
    {
        bytes.get(self.place..)?.get(..self.length)
    }
}

impl Sound {
    /// How many bytes the journal has. For the crates of this repository: it wants the parts of a lawful journal.
    pub fn length(&self) -> usize
        requires { (j : Journal) × LawfulJournal j × Parts self.now j }
        ensures { (j : Journal) → LawfulJournal j → Parts self.now j → result ≡ count_bytes (full j) }
    {
        let named = self.name.map_or(0, |span| span.length + SUPER_EXTRA);
        record_place(self.count) + named
    }

    /// The record of an index, from 0, if the journal has it.
    fn record<'a>(&self, bytes: &'a [u8], index: u32) -> Option<&'a [u8; RECORD]>
        ensures { MatchOption result (has_record self.now bytes.now index ≡ false) (λ r. (has_record self.now bytes.now index ≡ true) × (r.now ≡ part bytes.now (place_of index) 520)) }
    {
        if index >= self.count {
            return None;
        }
        bytes.get(record_place(index)..)?.first_chunk()
    }

    /// The page's number in the record of an index, from 0.
    pub fn page_number(&self, bytes: &[u8], index: u32) -> Option<u32>
        ensures is { MatchOption result (has_record self.now bytes.now index ≡ false) (λ n. n ≡ page_of bytes.now index) }
        ensures told { NumberTold bytes.now self.now index result }
    {
        Some(number(self.record(bytes, index)?, 0))
    }

    /// The page in the record of an index, from 0.
    pub fn page<'a>(&self, bytes: &'a [u8], index: u32) -> Option<&'a [u8]>
        ensures is { MatchOption result (has_record self.now bytes.now index ≡ false) (λ p. p.now ≡ page_bytes bytes.now index) }
        ensures told { MatchOption result (PageTold bytes.now self.now index None) (λ p. PageTold bytes.now self.now index (Some p.now)) }
    {
        Some(&self.record(bytes, index)?[4..4 + PAGE])
    }

    /// The super-journal's name, if there is one.
    pub fn super_journal<'a>(&self, bytes: &'a [u8]) -> Option<&'a [u8]>
        ensures is { MatchOption result (lying bytes.now self.now.name ≡ None) (λ n. lying bytes.now self.now.name ≡ Some n.now) }
        ensures told { MatchOption result (NameTold bytes.now self.now None) (λ n. NameTold bytes.now self.now (Some n.now)) }
    {
        self.name?.of(bytes)
    }
}
