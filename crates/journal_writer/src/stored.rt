// A journal on a card, stored.
ghost use Rattle.journal.specs.OnCard.{Acted};
ghost use Rattle.journal_writer.specs.OnCard.{store_acts};

use card::Card;
use journal::JournalFault;

/// Stores a journal of count 0 in the present file of that name, makes it safe, and then its count.
pub fn store_journal<C: Card>(
    card: &mut C,
    name: &[u8],
    bytes: &[u8],
    count: u32,
) -> Result<(), JournalFault>
    ensures { Acted C.Card.meaning (store_acts name.now bytes.now count) card.old result card.new }
{
    card.write(name, 0, bytes)?;
    card.sync(name)?; // the journal is safe before its count
    card.write(name, 8, &count.to_be_bytes())?;
    card.sync(name)?; // and the count before any page of the database
    Ok(())
}
