// The journals of a set, judged in order.
ghost use Rattle.std.specs.Prelude.{◌≡◌, ℕ, ◌<◌, Some, MatchOption, ◌≢◌};
ghost use Rattle.refusal.specs.declared.step.Step.TheVariants.{R1};
ghost use Rattle.names.specs.Files.{file_of, how_many};
ghost use Rattle.set_files.specs.Looked.{OnlyLooked};
ghost use Rattle.survey.specs.Asks.{AskedFor, AsksNamed, AsksJournal, AsksJournals};
ghost use Rattle.survey.specs.Linked.{LinkAs, look_at, link_of};
ghost use Rattle.survey.specs.Tells.{TellsNamed, TellsJournal, TellsJournals};

use crate::look::{Link, Look};
use card::Card;
use journal::{JOURNAL_LIMIT, Verdict};
use names::{DATABASES, Names, SUPER_JOURNAL, journal_of};
use refusal::{Refusal, Step};
use set_files::{journal_in, judge_numbered, length_named};

/// Whose super-journal has the name.
fn link_of(names: &Names, name: &[u8]) -> Link
    ensures { LinkAs (file_of names.now) name.now result }
{
    if names.file(SUPER_JOURNAL).bytes() == name {
        Link::Ours
    } else {
        Link::Other
    }
}

/// Looks at the super-journal that a sound journal of so many records names.
fn look_at_super<C: Card>(
    card: &mut C,
    names: &Names,
    records: u32,
    name: &[u8],
) -> Result<Look, Refusal>
    ensures looked { OnlyLooked C.Card.meaning R1 names.now card.old result card.new }
    ensures asked { AskedFor C.Card.meaning (AsksNamed (file_of names.now) (how_many names.now) name.now) card.old result card.new }
    ensures told { TellsNamed C.Card.meaning names.now card.old records name.now result }
{
    match length_named(card, names, Step::R1, name)? {
        None => Ok(Look::Spent),
        Some(_) => Ok(Look::Hot {
            records,
            link: Some(link_of(names, name)),
        }),
    }
}

/// Judges the journal of a database.
// A database goes by its number, as in the calls and in the faults. That it is one of the set's is what
// `journal_of` wants, and why the journal's number is told; a type for such numbers would be taken apart
// again at each site and each name.
fn judge_journal<C: Card>(
    card: &mut C,
    names: &Names,
    d: usize,
    buffer: &mut [u8; JOURNAL_LIMIT],
) -> Result<Look, Refusal>
    requires { d < how_many names.now }
    ensures looked { OnlyLooked C.Card.meaning R1 names.now card.old result card.new }
    ensures asked { AskedFor C.Card.meaning (AsksJournal (C.Card.meaning.holds card.old) (file_of names.now) (how_many names.now) d) card.old result card.new }
    ensures told { TellsJournal C.Card.meaning names.now card.old d result }
{
    let file = journal_of(d);
    match judge_numbered(card, names, Step::R1, file, buffer)? {
        None => Ok(Look::Absent),
        Some(Verdict::Spent) => Ok(Look::Spent),
        Some(Verdict::Damaged { record }) => Err(Refusal::Damaged { file, record }),
        Some(Verdict::Sound(sound)) => match sound.super_journal(journal_in(buffer, &sound)) {
            Some(name) => look_at_super(card, names, sound.count, name),
            None => Ok(Look::Hot {
                records: sound.count,
                link: None,
            }),
        },
    }
}

/// Judges each journal, in order, up to the first that is damaged.
// No `Few`, but four places cut at the number of databases: a report has four, and tells none of a database
// that the set has not.
pub(crate) fn judge_journals<C: Card>(
    card: &mut C,
    names: &Names,
    buffer: &mut [u8; JOURNAL_LIMIT],
) -> Result<[Look; DATABASES], Refusal>
    ensures looked { OnlyLooked C.Card.meaning R1 names.now card.old result card.new }
    ensures asked { AskedFor C.Card.meaning (AsksJournals (C.Card.meaning.holds card.old) (file_of names.now) (how_many names.now)) card.old result card.new }
    ensures told { TellsJournals C.Card.meaning names.now card.old result }
{
    let mut looks = [Look::Absent; DATABASES];
    let kept = &mut looks[0..names.count()];
    for (d, look) in kept.iter_mut().enumerate() {
        *look = judge_journal(card, names, d, buffer)?;
    }
    Ok(looks)
}

/// The first journal that names such a super-journal.
pub(crate) fn first_linked(looks: &[Look; DATABASES], link: Link) -> Option<usize>
    ensures { MatchOption result ((d : ℕ) → d < 4 → link_of (look_at looks.now d) ≢ Some link) (λ d. (d < 4) × (link_of (look_at looks.now d) ≡ Some link) × ((i : ℕ) → i < d → link_of (look_at looks.now i) ≢ Some link)) }
{
    looks.iter().position(|look| look.link() == Some(link))
}
