// Savepoints: pushing one, and releasing one with all above it.
ghost use Rattle.std.specs.Prelude.{◌≡◌, ◌+◌, ◌&&◌, leb, [], length, IfOk, if◌then◌else◌, Some, None, nat_eq, nat_le};
ghost use Rattle.refusal.specs.declared.refusals.Refusal.TheVariants.{SavepointsFull, NoSavepoint};
ghost use Rattle.pager.specs.Laws.{BackLaw, ReleaseLaw};
ghost use Rattle.pager.specs.Machine.{pushed, released};
ghost use Rattle.pager.specs.Saved.{gathered};
ghost use Rattle.pager.specs.View.{fields, KeptIfRefused, Takes};
ghost use Rattle.refusal.specs.Results.{refused};

use crate::memory::Memory;
use refusal::Refusal;

impl Memory {
    /// Makes a savepoint of what is held now, and tells its number; the lowest is 1. The contract
    /// carries the law of the step back: it restores what was held here, whatever was written, saved
    /// and released since.
    pub fn push(&mut self) -> Result<usize, Refusal>
        ensures refusal { refused result ≡ (if nat_eq (length self.old.levels.items) 8 then Some SavepointsFull else None) }
        ensures kept { KeptIfRefused result self.old self.new }
        ensures count { self.new.count ≡ self.old.count }
        ensures number { IfOk result (λ k. (k ≡ length self.old.levels.items + 1) × (length self.new.levels.items ≡ k)) }
        ensures done { Takes result self.old self.new pushed }
        ensures stores { (self.new.changed ≡ self.old.changed) × (self.new.saved ≡ self.old.saved) }
        ensures back { BackLaw }
    {
        if self.levels.is_full() {
            return Err(Refusal::SavepointsFull);
        }
        self.levels.push(self.sizes);
        Ok(self.levels.len())
    }

    /// Whether savepoint s stands.
    fn stands(&self, s: usize) -> bool
        ensures { result ≡ (nat_le 1 s && nat_le s (length self.now.levels.items)) }
    {
        (1..=self.levels.len()).contains(&s)
    }

    /// Removes savepoint s and all above it. Their saved pages pass to the one below, each once, or
    /// are dropped. Nothing that is held changes.
    pub fn release(&mut self, s: usize) -> Result<(), Refusal>
        ensures refusal { refused result ≡ (if leb 1 s && nat_le s (length self.old.levels.items) then None else Some NoSavepoint) }
        ensures kept { KeptIfRefused result self.old self.new }
        ensures count { self.new.count ≡ self.old.count }
        ensures done { Takes result self.old self.new (released s) }
        ensures saved { refused result ≡ None → (fields self.new).saved ≡ gathered s [] (fields self.old).saved }
        ensures changed { self.new.changed ≡ self.old.changed }
        ensures law { ReleaseLaw }
    {
        if !self.stands(s) {
            return Err(Refusal::NoSavepoint);
        }
        self.saved = self.saved.passed_down(s);
        self.levels.truncate(s - 1);
        Ok(())
    }
}
