// A commit on a card, from the first step to the last.
ghost use Rattle.std.specs.Prelude.{◌≡◌, ℕ};
ghost use Rattle.names.specs.Files.{how_many, file_of};
ghost use Rattle.pager.specs.View.{view};
ghost use Rattle.journaling.specs.Changes.{changes, contents};
ghost use Rattle.commit.specs.Ended.{Committed};

use crate::work::Work;
use card::Card;
use journal::JOURNAL_LIMIT;
use names::Names;
use pager::Memory;
use refusal::SetFault;
use sizes::Sizes;

/// Commits what a transaction's memory holds to the databases on the card, whose sizes at the start
/// are given, and tells how many journals are left. Without a changed page it calls no card. A fault
/// before the deletion that makes the commit count stops it.
// Six parameters: the set lends its fields one by one, the card and the buffer to be changed, the others to be read.
pub fn commit<C: Card>(
    card: &mut C,
    names: &Names,
    memory: &Memory,
    sizes: &Sizes,
    nonce: u32,
    buffer: &mut [u8; JOURNAL_LIMIT],
) -> Result<usize, SetFault>
    ensures { Committed C.Card.meaning (file_of names.now) nonce (changes (λ d. contents (C.Card.meaning.holds card.old (file_of names.now d))) sizes.now.rows (view (λ d. contents (C.Card.meaning.holds card.old (file_of names.now d))) memory.now) (how_many names.now)) card.old result card.new }
{
    let work = Work::new(names, memory, sizes, nonce);
    work.open_super(card, buffer)?;
    work.make_journals(card, buffer)?;
    work.write_databases(card)?;
    work.close(card)?;
    Ok(work.delete_spent_journals(card))
}
