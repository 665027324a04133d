// Committing the running transaction.
ghost use Rattle.std.specs.Prelude.{◌≡◌, IfOk};
ghost use Rattle.pager.specs.View.{Stored};
ghost use Rattle.store.specs.Calls.{told, ButRun};
ghost use Rattle.store.specs.Commits.{Commits, Concluded};
ghost use Rattle.store.specs.Modes.{says};
ghost use Rattle.store.specs.Reads.{files_of};
ghost use Rattle.store.specs.Standing.{Stores};
ghost use Rattle.store.specs.declared.mode.Call.TheVariants.{Use};

use crate::mode::{Call, Mode};
use crate::set::Set;
use crate::transaction::Transaction;
use card::Card;
use commit::commit;
use refusal::{Refusal, SetFault};
use sizes::Sizes;

impl<C> Set<C> {
    /// What the commit answered, as the set tells it. With all journals gone the set is ready, else it is
    /// cold; done, the sizes of the memory are stored.
    fn conclude(&mut self, answer: Result<usize, SetFault>) -> Result<usize, Refusal>
        ensures told { result ≡ told answer }
        ensures concluded { Concluded answer self.old.memory self.old.stored self.new.mode self.new.memory self.new.stored }
        ensures others { ButRun self.old self.new }
    {
        match answer {
            Ok(left) => {
                let grown = Sizes::checked(self.memory.sizes()).unwrap();
                let mode = if left == 0 { Mode::Ready } else { Mode::Cold };
                self.clear(mode, grown);
                Ok(left)
            }
            Err(fault) => {
                self.clear(Mode::Cold, self.stored);
                Err(Refusal::Card(fault))
            }
        }
    }
}

impl<C: Card> Set<C> {
    /// Commits a transaction: its pages become those of the files, in all databases together, and the
    /// number of journals that could not be deleted is told. The token is taken also when the call is
    /// refused. After a fault the set is cold. Over files of the sizes that are stored, a commit that is done
    /// leaves in the files what the transaction held.
    pub fn commit(&mut self, t: Transaction) -> Result<usize, Refusal>
        ensures commits { Commits C.Card.meaning self.old result self.new (says self.old.mode self.old.begun (Use t.number)) }
        ensures stores { IfOk result (λ left. Stored (files_of C.Card.meaning self.old) self.old.stored.rows → Stores C.Card.meaning self.old left self.new) }
    {
        let number = t.end();
        // The mode gives the nonce; where none runs it is refused as `admit` would.
        let Mode::Running { nonce, .. } = self.mode else {
            return Err(Refusal::Transaction);
        };
        self.admit(Call::Use { number })?;
        let answer = commit(
            &mut self.card,
            &self.names,
            &self.memory,
            &self.stored,
            nonce,
            &mut self.buffer,
        );
        self.conclude(answer)
    }
}
