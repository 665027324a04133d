// Calls of the card on the files of a set, by their numbers: 0 to 3 a database, 4 to 7 its journal, 8 the super-journal.
// One goes by a name, which another file gives and which may be any file's; it too is told by a number, 9 for another's.
// The card and the names go side by side here and above: in one struct, lent as a whole, each function would
// also have to promise that the names stay as they are. A file goes by its number, as `names` looks it up
// and as a fault tells it; step and file apart, since a `Site` would be taken apart again for the name.
ghost use Rattle.std.specs.Prelude.{ℕ, [], ◌∷◌, Some};
ghost use Rattle.card.specs.Calls.Op.{length_of, delete as deletes};
ghost use Rattle.journal.specs.OnCard.{judge_acts};
ghost use Rattle.steps.specs.Tasks.{Went, task, tasks, ToldLength, at};
ghost use Rattle.names.specs.Files.{file_of, how_many};
ghost use Rattle.set_files.specs.Files.{ToldVerdict};
ghost use Rattle.set_files.specs.Looked.{FileTold};

use card::Card;
use journal::{JOURNAL_LIMIT, Verdict, judge_file};
use names::Names;
use refusal::{FOREIGN, SetFault, Step};
use steps::Site;

/// How many bytes the file of a number has, or none if it is absent.
pub fn length_of<C: Card>(
    card: &mut C,
    names: &Names,
    step: Step,
    file: usize,
) -> Result<Option<u32>, SetFault>
    ensures went { Went C.Card.meaning (task (at step file) (file_of names.now file) length_of ∷ []) card.old result card.new }
    ensures told { ToldLength (C.Card.meaning.holds card.old (file_of names.now file)) result }
{
    Site::new(step, file).length(card, names.file(file).bytes())
}

/// How many bytes the file of a name has, or none if it is absent. The look is told as the file of the set
/// that has the name, or as another's.
pub fn length_named<C: Card>(
    card: &mut C,
    names: &Names,
    step: Step,
    name: &[u8],
) -> Result<Option<u32>, SetFault>
    ensures went { (k : ℕ) × FileTold (file_of names.now) (how_many names.now) name.now k × Went C.Card.meaning (task (at step k) name.now length_of ∷ []) card.old result card.new }
    ensures told { ToldLength (C.Card.meaning.holds card.old name.now) result }
{
    let file = names.number_of(name).unwrap_or(FOREIGN);
    Site::new(step, file).length(card, name)
}

/// Deletes the file of a number.
pub fn delete_file<C: Card>(
    card: &mut C,
    names: &Names,
    step: Step,
    file: usize,
) -> Result<(), SetFault>
    ensures { Went C.Card.meaning (task (at step file) (file_of names.now file) deletes ∷ []) card.old result card.new }
{
    Site::new(step, file).delete(card, names.file(file).bytes())
}

/// Judges the file of a number as a journal; none if it is absent. The buffer then has the journal's bytes.
pub fn judge_numbered<C: Card>(
    card: &mut C,
    names: &Names,
    step: Step,
    file: usize,
    buffer: &mut [u8; JOURNAL_LIMIT],
) -> Result<Option<Verdict>, SetFault>
    ensures went { Went C.Card.meaning (tasks (at step file) (judge_acts (file_of names.now file) (C.Card.meaning.holds card.old (file_of names.now file)))) card.old result card.new }
    ensures told { ToldVerdict (C.Card.meaning.holds card.old (file_of names.now file)) buffer.old result buffer.new }
{
    Site::new(step, file).told(judge_file(card, names.file(file).bytes(), buffer))
}
