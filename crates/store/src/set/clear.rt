// Ending what runs.
ghost use Rattle.std.specs.Prelude.{◌≡◌, false};
ghost use Rattle.store.specs.Between.{runs};
ghost use Rattle.store.specs.Calls.{Fresh, ButRun};

use crate::mode::Mode;
use crate::set::Set;
use sizes::Sizes;

impl<C> Set<C> {
    /// Ends what runs: the set has that mode then, those sizes are stored, and the memory is cleared to them.
    // A clause and no type of the two modes at rest: a set has one mode, and its callers name it.
    pub(crate) fn clear(&mut self, mode: Mode, stored: Sizes)
        requires { runs mode ≡ false }
        ensures mode { self.new.mode ≡ mode }
        ensures stored { self.new.stored ≡ stored }
        ensures fresh { Fresh self.old.memory stored.rows self.new.memory }
        ensures others { ButRun self.old self.new }
    {
        self.mode = mode;
        self.stored = stored;
        self.memory.clear(stored.rows());
    }
}
