// What is found before anything is changed.
ghost use Rattle.std.specs.Prelude.{◌≡◌, ℕ, ◌<◌};
ghost use Rattle.refusal.specs.declared.step.Step.TheVariants.{R1};
ghost use Rattle.names.specs.Files.{how_many, file_of};
ghost use Rattle.set_files.specs.Looked.{OnlyLooked};
ghost use Rattle.survey.specs.Asks.{Asks, AskedFor, AsksLaw};
ghost use Rattle.survey.specs.Examples.{Examples};
ghost use Rattle.survey.specs.Finds.{Finds};
ghost use Rattle.survey.specs.Linked.{look_at, found_of};
ghost use Rattle.survey.specs.Seen.{found_at};

use crate::journals::{first_linked, judge_journals};
use crate::listing::check_super;
use crate::look::{Link, Look};
use crate::presence::all_present;
use crate::report::Found;
use card::Card;
use journal::JOURNAL_LIMIT;
use names::{DATABASES, Names, journal_of};
use refusal::Refusal;

/// What each journal was found to be.
fn found_in(looks: [Look; DATABASES]) -> [Found; DATABASES]
    ensures { (d : ℕ) → d < 4 → found_at result d ≡ found_of (look_at looks d) }
{
    looks.map(Found::from)
}

/// What each database's journal is. It is refused, in this order, for an absent database, a damaged
/// journal, a hot journal that names another super-journal, and a super-journal that is damaged or
/// lists another present file.
// `using`: the law and the examples are proved at each return alike, and so they have no proof file
#[tactic(auto, using(crate::proofs::Cases::asks_law, crate::proofs::Cases::examples))]
pub fn survey<C: Card>(
    card: &mut C,
    names: &Names,
    buffer: &mut [u8; JOURNAL_LIMIT],
) -> Result<[Found; DATABASES], Refusal>
    ensures looked { OnlyLooked C.Card.meaning R1 names.now card.old result card.new }
    ensures asked { AskedFor C.Card.meaning (Asks (C.Card.meaning.holds card.old) (file_of names.now) (how_many names.now)) card.old result card.new }
    ensures told { Finds (C.Card.meaning.holds card.old) (file_of names.now) (how_many names.now) result }
    ensures law { AsksLaw }
    ensures examples { Examples }
{
    all_present(card, names)?;
    let looks = judge_journals(card, names, buffer)?;
    if let Some(d) = first_linked(&looks, Link::Other) {
        return Err(Refusal::Foreign(journal_of(d)));
    }
    if first_linked(&looks, Link::Ours).is_some() {
        check_super(card, names, buffer)?;
    }
    Ok(found_in(looks))
}
