// Writing a page in the running transaction.
ghost use Rattle.std.specs.Prelude.{◌≡◌, ℕ, ◌+◌, cond, List, length as count_of, None};
ghost use Rattle.pager.specs.Machine.{written};
ghost use Rattle.pager.specs.Sound.{map_of};
ghost use Rattle.pager.specs.View.{view, fields, saved_first};
ghost use Rattle.refusal.specs.Results.{refused};
ghost use Rattle.store.specs.Calls.{writing_refusal, KeptIfRefused, ButMemory};

use crate::mode::Call;
use crate::set::Set;
use crate::transaction::Transaction;
use refusal::Refusal;

impl<C> Set<C> {
    /// Writes a page of a database: replaces it, or adds the one after its last. The card is not asked.
    pub fn write(
        &mut self,
        t: &Transaction,
        database: usize,
        page: u32,
        bytes: &[u8],
    ) -> Result<(), Refusal>
        ensures refusal { refused result ≡ writing_refusal self.old.mode self.old.begun t.now.number self.old.memory database page (count_of bytes.now) }
        ensures kept { KeptIfRefused result self.old self.new }
        ensures done { refused result ≡ None → (files : ℕ → List ℕ) → view files self.new.memory ≡ written database page bytes.now (view files self.old.memory) }
        ensures used { refused result ≡ None → count_of self.new.memory.changed.rows.items ≡ cond (map_of self.old.memory.maps database page) (count_of self.old.memory.changed.rows.items) (count_of self.old.memory.changed.rows.items + 1) }
        ensures saved { refused result ≡ None → (fields self.new.memory).saved ≡ saved_first self.old.memory database page }
        ensures others { ButMemory self.old self.new }
    {
        self.admit(Call::Use { number: t.number() })?;
        self.memory.write(database, page, bytes)
    }
}
