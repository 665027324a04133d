// The page records of a journal, in place.
ghost use Rattle.std.specs.Prelude.{◌≡◌, ℕ, zero, suc, ◌+◌, ◌*◌, ◌<◌, ◌≤◌, true, false, length as count_bytes};
ghost use Rattle.journal.specs.Judged.{follows as follows_page, record_right};
ghost use Rattle.journal.specs.Fronts.{Reads, FirstWrong};

use crate::header::Header;
use crate::layout::{RECORD, checksum, number, record_place};
use page_map::PAGE;

/// The bytes of a journal, which have all the page records that its header counts.
#[derive(Drop)]
pub struct Records<'a> {
    pub bytes: &'a [u8],
    pub header: Header,
    ghost read: { Reads bytes.now header },
    ghost inside: { 512 + 520 * header.count ≤ count_bytes bytes.now },
}

impl Records<'_> {
    /// Whether the record's page is 1 in the first record, and past the page before it in any other.
    fn follows(&self, index: u32) -> bool
        requires { index < self.now.header.count }
        ensures { result ≡ follows_page self.now.bytes.now index }
    {
        let place = record_place(index);
        let page = number(self.bytes, place);
        if index == 0 {
            page == 1
        } else {
            number(self.bytes, place - RECORD) < page
        }
    }

    /// Whether the record is of a page that follows, within the size, with its checksum.
    #[tactic(auto, using(std::proofs::lemmas::Bool::Decides::nat_tests), unfolding(crate::specs::Judged::record_right))]
    fn holds(&self, index: u32) -> bool
        requires { index < self.now.header.count }
        ensures { result ≡ record_right self.now.bytes.now index }
    {
        let place = record_place(index);
        let sum = checksum(self.header.nonce, &self.bytes[place + 4..place + 4 + PAGE]);
        self.follows(index)
            && number(self.bytes, place) <= self.header.size
            && number(self.bytes, place + 4 + PAGE) == sum
    }

    /// The first wrong page record, by its index from 0; none if all are right.
    pub fn first_wrong(&self) -> Option<u32>
        ensures { FirstWrong self.now.bytes.now self.now.header.count result }
    {
        // a loop: with `find` and its closure a whole journal took twice the time
        for index in 0..self.header.count {
            if !self.holds(index) {
                return Some(index);
            }
        }
        None
    }
}
