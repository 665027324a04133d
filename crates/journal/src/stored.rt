// A journal on a card, judged.
ghost use Rattle.std.specs.Prelude.{◌≡◌, ℕ, ◌+◌, ◌*◌, ◌<◌, ◌≤◌, min, List, length as count_of, take};
ghost use Rattle.journal.specs.Judged.{Judged};
ghost use Rattle.journal.specs.OnCard.{Acted, judge_acts, ToldVerdict};

use crate::fault::JournalFault;
use crate::header::is_spent;
use crate::verdict::{Verdict, judge};
use card::Card;

/// The most bytes that a journal has: a header, 33 records, and the super-journal record of a name of 32 bytes.
pub const JOURNAL_LIMIT: usize = 17_724;

/// Judges a journal of that length by its bytes, or by the first of them if it is longer than any journal.
fn judge_front(front: &[u8], length: usize) -> Verdict
    requires { count_of front.now ≡ min length 17724 }
    ensures { (b : List ℕ) → count_of b ≡ length → take 17724 b ≡ front.now → Judged b result }
{
    if length <= JOURNAL_LIMIT {
        return judge(front);
    }
    if is_spent(front) {
        return Verdict::Spent;
    }
    Verdict::Damaged { record: 0 }
}

/// Judges the file of that name as a journal; none if it is absent. The buffer then has the journal's bytes.
// The verdict comes alone, and the bytes stay in the caller's buffer. Tried: of a buffer that an answer lends a part
// of, a proof knows nothing afterwards, and the clause `told` says what the buffer holds.
pub fn judge_file<C: Card>(
    card: &mut C,
    name: &[u8],
    buffer: &mut [u8; JOURNAL_LIMIT],
) -> Result<Option<Verdict>, JournalFault>
    ensures acted { Acted C.Card.meaning (judge_acts name.now (C.Card.meaning.holds card.old name.now)) card.old result card.new }
    ensures told { ToldVerdict (C.Card.meaning.holds card.old name.now) buffer.old result buffer.new }
{
    let Some(length) = card.length(name)? else {
        return Ok(None);
    };
    let length = length as usize;
    let taken = length.min(JOURNAL_LIMIT);
    card.read(name, 0, &mut buffer[0..taken])?;
    Ok(Some(judge_front(&buffer[0..taken], length)))
}
