// The set's super-journal, and the files that it lists.
ghost use Rattle.std.specs.Prelude.{◌≡◌, ℕ, ◌<◌, List, length as count_of, IfOk, Some, MatchOption};
ghost use Rattle.super_journal.specs.Written.{texts};
ghost use Rattle.refusal.specs.declared.step.Step.TheVariants.{R1};
ghost use Rattle.steps.specs.Tasks.{Went};
ghost use Rattle.names.specs.Files.{file_of, how_many, super_file};
ghost use Rattle.set_files.specs.Files.{Present};
ghost use Rattle.set_files.specs.Looked.{Looked, OnlyLooked, ended};
ghost use Rattle.survey.specs.Asks.{AskedFor, AsksListed, AsksNames, AsksList, AsksSuper, super_looks};
ghost use Rattle.survey.specs.Tells.{TellsListed, TellsNames, TellsList, TellsSuper};

use card::Card;
use journal::JOURNAL_LIMIT;
use names::{Names, SUPER_JOURNAL};
use refusal::{FOREIGN, Refusal, SetFault, Step};
use set_files::{length_named, length_of};
use steps::Site;
use super_journal::read_names;

/// Why a super-journal that is no list of names is refused.
const NO_LIST: Refusal = Refusal::Damaged {
    file: SUPER_JOURNAL,
    record: 0,
};

/// Tests that a listed file is a journal of the set, or absent.
fn check_listed<C: Card>(card: &mut C, names: &Names, name: &[u8]) -> Result<(), Refusal>
    ensures looked { OnlyLooked C.Card.meaning R1 names.now card.old result card.new }
    ensures asked { AskedFor C.Card.meaning (AsksListed (C.Card.meaning.holds card.old) (file_of names.now) (how_many names.now) name.now) card.old result card.new }
    ensures told { TellsListed C.Card.meaning names.now card.old name.now result }
{
    if names.is_journal(name) {
        return Ok(());
    }
    match length_named(card, names, Step::R1, name)? {
        None => Ok(()),
        Some(_) => Err(Refusal::Foreign(FOREIGN)),
    }
}

/// Tests each listed file.
fn check_names<C: Card>(card: &mut C, names: &Names, list: &[&[u8]]) -> Result<(), Refusal>
    ensures looked { OnlyLooked C.Card.meaning R1 names.now card.old result card.new }
    ensures asked { AskedFor C.Card.meaning (AsksNames (C.Card.meaning.holds card.old) (file_of names.now) (how_many names.now) (texts list.now)) card.old result card.new }
    ensures told { TellsNames C.Card.meaning names.now card.old (texts list.now) result }
{
    for name in list {
        check_listed(card, names, name)?;
    }
    Ok(())
}

/// Tests that the bytes are a list of names, and each file of it.
fn check_list<C: Card>(card: &mut C, names: &Names, bytes: &[u8]) -> Result<(), Refusal>
    ensures looked { OnlyLooked C.Card.meaning R1 names.now card.old result card.new }
    ensures asked { AskedFor C.Card.meaning (AsksList (C.Card.meaning.holds card.old) (file_of names.now) (how_many names.now) bytes.now) card.old result card.new }
    ensures told { TellsList C.Card.meaning names.now card.old bytes.now result }
{
    let list = read_names(bytes).ok_or(NO_LIST)?;
    check_names(card, names, list.as_slice())
}

/// The bytes of the present super-journal, read into the buffer; none if it is longer.
fn read_super<'a, C: Card>(
    card: &mut C,
    names: &Names,
    buffer: &'a mut [u8; JOURNAL_LIMIT],
) -> Result<Option<&'a [u8]>, SetFault>
    requires { Present (C.Card.meaning.holds card.old (super_file names.now)) }
    ensures looked { Looked C.Card.meaning R1 (file_of names.now) (how_many names.now) card.old (ended result) card.new }
    ensures asked { (b : List ℕ) → C.Card.meaning.holds card.old (super_file names.now) ≡ Some b → Went C.Card.meaning (super_looks (super_file names.now) b) card.old result card.new }
    ensures told { IfOk result (λ o. (b : List ℕ) × (C.Card.meaning.holds card.old (super_file names.now) ≡ Some b) × MatchOption o (17724 < count_of b) (λ bytes. bytes.now ≡ b)) }
{
    let length = length_of(card, names, Step::R1, SUPER_JOURNAL)?.unwrap() as usize;
    if length > JOURNAL_LIMIT {
        return Ok(None);
    }
    let front = &mut buffer[..length];
    let name = names.file(SUPER_JOURNAL);
    Site::new(Step::R1, SUPER_JOURNAL).read(card, name.bytes(), 0, front)?;
    Ok(Some(front))
}

/// Tests the set's super-journal, which is present: its form, and the files that it lists.
pub(crate) fn check_super<C: Card>(
    card: &mut C,
    names: &Names,
    buffer: &mut [u8; JOURNAL_LIMIT],
) -> Result<(), Refusal>
    requires { Present (C.Card.meaning.holds card.old (super_file names.now)) }
    ensures looked { OnlyLooked C.Card.meaning R1 names.now card.old result card.new }
    ensures asked { AskedFor C.Card.meaning (AsksSuper (C.Card.meaning.holds card.old) (file_of names.now) (how_many names.now)) card.old result card.new }
    ensures told { TellsSuper C.Card.meaning names.now card.old result }
{
    let bytes = read_super(card, names, buffer)?.ok_or(NO_LIST)?;
    check_list(card, names, bytes)
}
