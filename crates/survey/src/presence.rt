// Whether the databases are present.
ghost use Rattle.refusal.specs.declared.step.Step.TheVariants.{R1};
ghost use Rattle.names.specs.Files.{file_of, how_many};
ghost use Rattle.set_files.specs.Looked.{OnlyLooked};
ghost use Rattle.survey.specs.Asks.{AskedFor, AsksDatabases};
ghost use Rattle.survey.specs.Tells.{TellsPresence};

use card::Card;
use names::Names;
use refusal::{Refusal, Step};
use set_files::length_of;

/// Tests that each database is present, in order.
// Over numbers: a file is asked for by its number, and the refusal tells it.
pub(crate) fn all_present<C: Card>(card: &mut C, names: &Names) -> Result<(), Refusal>
    ensures looked { OnlyLooked C.Card.meaning R1 names.now card.old result card.new }
    ensures asked { AskedFor C.Card.meaning (AsksDatabases (C.Card.meaning.holds card.old) (file_of names.now) (how_many names.now)) card.old result card.new }
    ensures told { TellsPresence C.Card.meaning names.now card.old result }
{
    for d in 0..names.count() {
        length_of(card, names, Step::R1, d)?.ok_or(Refusal::Database(d))?;
    }
    Ok(())
}
