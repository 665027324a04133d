// A journal's bytes in the buffer that they were read into.
ghost use Rattle.std.specs.Prelude.{◌≡◌, ℕ, List};
ghost use Rattle.card.specs.Calls.{overwrite};
ghost use Rattle.journal.specs.Format.{Journal, LawfulJournal, full};
ghost use Rattle.journal.specs.Judged.{Parts};
ghost use Rattle.journal.specs.Read.{Of};

use journal::{JOURNAL_LIMIT, Sound};

/// The bytes of a journal that was read into the buffer and found sound. For the crates of this
/// repository: it wants the parts of a lawful journal.
pub fn journal_in<'a>(buffer: &'a [u8; JOURNAL_LIMIT], sound: &Sound) -> &'a [u8]
    requires { (j : Journal) × LawfulJournal j × Parts sound.now j }
    ensures { (j : Journal) (old : List ℕ) → LawfulJournal j → Parts sound.now j → buffer.now ≡ overwrite old 0 (full j) → Of result.now sound.now j }
{
    &buffer[..sound.length()]
}
