// Savepoints of the running transaction.
ghost use Rattle.std.specs.Prelude.{◌≡◌, ℕ, ◌+◌, List, [], length, IfOk, None};
ghost use Rattle.pager.specs.Machine.{pushed, released};
ghost use Rattle.pager.specs.Saved.{gathered};
ghost use Rattle.pager.specs.View.{view, fields};
ghost use Rattle.refusal.specs.Results.{refused};
ghost use Rattle.store.specs.Calls.{savepoint_refusal, release_refusal, KeptIfRefused, ButMemory};

use crate::mode::Call;
use crate::set::Set;
use crate::transaction::Transaction;
use refusal::Refusal;

impl<C> Set<C> {
    /// Makes a savepoint of what is held now, and tells its number; the lowest is 1.
    pub fn savepoint(&mut self, t: &Transaction) -> Result<usize, Refusal>
        ensures refusal { refused result ≡ savepoint_refusal self.old.mode self.old.begun t.now.number self.old.memory }
        ensures kept { KeptIfRefused result self.old self.new }
        ensures number { IfOk result (λ k. (k ≡ length self.old.memory.levels.items + 1) × (length self.new.memory.levels.items ≡ k)) }
        ensures done { refused result ≡ None → (files : ℕ → List ℕ) → view files self.new.memory ≡ pushed (view files self.old.memory) }
        ensures stores { (self.new.memory.changed ≡ self.old.memory.changed) × (self.new.memory.saved ≡ self.old.memory.saved) }
        ensures others { ButMemory self.old self.new }
    {
        let number = t.number();
        self.admit(Call::Use { number })?;
        self.memory.push()
    }

    /// Removes savepoint s and all above it. Nothing that is held changes.
    pub fn release(&mut self, t: &Transaction, s: usize) -> Result<(), Refusal>
        ensures refusal { refused result ≡ release_refusal self.old.mode self.old.begun t.now.number self.old.memory s }
        ensures kept { KeptIfRefused result self.old self.new }
        ensures done { refused result ≡ None → (files : ℕ → List ℕ) → view files self.new.memory ≡ released s (view files self.old.memory) }
        ensures saved { refused result ≡ None → (fields self.new.memory).saved ≡ gathered s [] (fields self.old.memory).saved }
        ensures changed { self.new.memory.changed ≡ self.old.memory.changed }
        ensures others { ButMemory self.old self.new }
    {
        self.admit(Call::Use { number: t.number() })?;
        self.memory.release(s)
    }
}
