// The whole of a recovery.
ghost use Rattle.names.specs.Files.{how_many, file_of};
ghost use Rattle.recovery.specs.Recovered.{Recovered};

use crate::lengths::measure;
use crate::report::Recovery;
use card::Card;
use journal::JOURNAL_LIMIT;
use names::Names;
use refusal::Refusal;
use settling::settle;
use survey::survey;

/// Recovers a set: switches power on, looks at its files, plays hot journals back, deletes the
/// journals and then the super-journal, and measures the databases. Nothing is changed if it is
/// refused for what it found.
pub fn recover<C: Card>(
    card: &mut C,
    names: &Names,
    buffer: &mut [u8; JOURNAL_LIMIT],
) -> Result<Recovery, Refusal>
    ensures { Recovered C.Card.meaning (file_of names.now) (how_many names.now) card.old result card.new }
{
    card.power();
    let found = survey(card, names, buffer)?;
    settle(card, names, &found, buffer)?;
    let sizes = measure(card, names)?;
    Ok(Recovery { found, sizes })
}
