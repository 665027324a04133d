// What a commit works by: the names of the files, the memory of the transaction, the sizes at the start,
// the nonce of its journals, and the databases that have a changed page.
ghost use Rattle.std.specs.Prelude.{◌≡◌, ◌<◌, ◌≤◌, length as count_of, EachIndex, slice_index};
ghost use Rattle.names.specs.Files.{how_many};
ghost use Rattle.pager.specs.Sound.{map_of};
ghost use Rattle.journaling.specs.Changes.{changed_list};

use few::Few;
use journaling::is_changed;
use names::{DATABASES, Names};
use pager::Memory;
use sizes::Sizes;

/// What a commit works by: the changed databases stand in a list, in order.
// Four fields stand in `Journals` too, and are copied in one place, in `rounds`. With a `Journals` held here each
// other round, and each clause on a commit, would reach through it for those four.
#[derive(Clone, Copy)]
pub struct Work<'a> {
    pub names: &'a Names,
    pub memory: &'a Memory,
    pub sizes: &'a Sizes,
    pub nonce: u32,
    changed: Few<usize, DATABASES>,
    ghost listed: { changed.items ≡ changed_list (map_of memory.now.maps) (how_many names.now) },
}

/// Those of the first databases that have a changed page, in order.
fn changed_databases(memory: &Memory, count: usize) -> Few<usize, DATABASES>
    requires { count ≤ 4 }
    ensures { result.items ≡ changed_list (map_of memory.now.maps) count }
{
    let mut changed = Few::new();
    for database in (0..count).filter(|database| is_changed(memory, *database)) {
        changed.push(database);
    }
    changed
}

impl<'a> Work<'a> {
    ghost use Rattle.commit.specs.Works.{listed, several};

    /// The work of a commit of the memory.
    pub fn new(names: &'a Names, memory: &'a Memory, sizes: &'a Sizes, nonce: u32) -> Work<'a>
        ensures names { result.names.now ≡ names.now }
        ensures memory { result.memory.now ≡ memory.now }
        ensures sizes { result.sizes.now ≡ sizes.now }
        ensures nonce { result.nonce ≡ nonce }
    {
        Work {
            names,
            memory,
            sizes,
            nonce,
            changed: changed_databases(memory, names.count()),
        }
    }

    /// The databases that have a changed page, in order.
    pub fn changed(&self) -> &[usize]
        ensures is { result.now ≡ listed self.now }
        ensures few { count_of result.now ≤ 4 }
        ensures named { EachIndex result.now (λ k. slice_index result.now k < how_many self.now.names.now) }
    {
        self.changed.as_slice()
    }

    /// Whether two or more databases change.
    pub fn many(&self) -> bool
        ensures { result ≡ several self.now }
    {
        self.changed.len() >= 2
    }
}
