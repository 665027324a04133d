// What a transaction holds in memory: sizes, the changed pages, and the savepoints with the pages
// that they saved.
ghost use Rattle.std.specs.Prelude.{◌≤◌, length};
ghost use Rattle.pager.specs.Sound.{Sound};

use crate::changed_pages::ChangedPages;
use crate::saved_pages::SavedPages;
use few::Few;
use page_map::{DATABASES, PageMap};

mod look;
mod savepoint;
mod write;

/// The most savepoints that stand at one time.
pub const SAVEPOINTS: usize = 8;

/// The memory of a transaction. The sizes are in pages; each savepoint has those of its making.
#[derive(Clone, Copy)]
pub struct Memory {
    count: usize,
    // no list of databases: all four sizes are given and told, those past the count too, and a savepoint
    // keeps the sizes alone
    sizes: [u32; DATABASES],
    maps: [PageMap; DATABASES],
    changed: ChangedPages,
    saved: SavedPages,
    levels: Few<[u32; DATABASES], SAVEPOINTS>,
    // what makes a database below the count one of the four
    ghost few: { count ≤ 4 },
    // the list's own bound, which a clause on its items does not show: the room for a savepoint rests on it
    ghost low: { length levels.items ≤ 8 },
    ghost sound: { ∥ Sound count (record { sizes = sizes; maps = maps; changed = changed.rows.items; saved = saved.rows.items; level_sizes = levels.items }) ∥₁ },
}
