// Recovering a set: it becomes ready with what its databases hold.
ghost use Rattle.std.specs.Prelude.{◌≡◌, IfOk};
ghost use Rattle.store.specs.Calls.{ButRun};
ghost use Rattle.store.specs.Recovers.{Sized, Restarted, Recovers};
ghost use Rattle.store.specs.Standing.{AsFiles};

use crate::mode::Mode;
use crate::set::Set;
use card::Card;
use recovery::{Recovery, recover};
use refusal::Refusal;
use sizes::Sizes;

impl<C> Set<C> {
    /// What the recovery answered, with the set as it is then: ready with the sizes that were measured,
    /// or cold. No transaction runs.
    fn restart(&mut self, answer: Result<Recovery, Refusal>) -> Result<Recovery, Refusal>
        requires { Sized answer }
        ensures told { result ≡ answer }
        ensures restarted { Restarted answer self.old.memory self.old.stored self.new.mode self.new.memory self.new.stored }
        ensures others { ButRun self.old self.new }
    {
        match answer {
            Ok(recovery) => {
                let sizes = Sizes::checked(recovery.sizes).unwrap();
                self.clear(Mode::Ready, sizes);
                Ok(recovery)
            }
            Err(refusal) => {
                self.clear(Mode::Cold, self.stored);
                Err(refusal)
            }
        }
    }
}

impl<C: Card> Set<C> {
    /// Recovers the set, in any mode: what a failed commit left is rolled back or forgotten. A running
    /// transaction ends. The set is ready then, or cold if the recovery is refused. Ready,
    /// its files hold whole pages, as many as it says, and it shows just what they hold.
    pub fn recover(&mut self) -> Result<Recovery, Refusal>
        ensures recovers { Recovers C.Card.meaning self.old result self.new }
        ensures shows { IfOk result (λ _. AsFiles C.Card.meaning self.new) }
    {
        let answer = recover(&mut self.card, &self.names, &mut self.buffer);
        self.restart(answer)
    }
}
