// The two ends of a transaction: its begin, and its rollback.
ghost use Rattle.std.specs.Prelude.{◌≡◌, ◌≢◌, true, None};
ghost use Rattle.refusal.specs.Results.{refused};
ghost use Rattle.store.specs.Modes.{next, counted, says, given};
ghost use Rattle.store.specs.Examples.{Examples};
ghost use Rattle.store.specs.Between.{AsStored};
ghost use Rattle.store.specs.Calls.{Fresh, KeptIfRefused, ButMode, ButRun};
ghost use Rattle.store.specs.declared.mode.Mode.TheVariants.{Ready};
ghost use Rattle.store.specs.declared.mode.Call.TheVariants.{Begin, Use};

use crate::mode::{Call, Mode};
use crate::set::Set;
use crate::transaction::Transaction;
use refusal::Refusal;

impl<C> Set<C> {
    /// Begins a transaction: nothing is changed, and no savepoint stands. It is never refused: on a set that is not
    /// ready, or has begun 4,294,967,295 transactions, the token is void, its number 0, and the set is as it was.
    // `using`: the examples of the modes are proved at each return alike, and so they have no proof file
    #[tactic(auto, using(crate::proofs::Cases::examples))]
    pub fn begin(&mut self, nonce: u32) -> Transaction
        ensures number { result.number ≡ given self.old.mode self.old.begun }
        ensures live { result.«open» ≡ true }
        ensures mode { self.new.mode ≡ next self.old.mode self.old.begun (Begin nonce) }
        ensures begun { self.new.begun ≡ counted self.old.mode self.old.begun (Begin nonce) }
        ensures start { result.number ≢ 0 → AsStored self.new.memory self.old.stored.rows }
        ensures kept { result.number ≡ 0 → self.new ≡ self.old }
        ensures others { ButMode self.old self.new }
        ensures examples { Examples }
    {
        match self.admit(Call::Begin { nonce }) {
            Ok(()) => Transaction::new(self.begun),
            Err(_) => Transaction::new(0),
        }
    }

    /// Ends a transaction and drops what it changed. The token is taken also when the call is refused.
    pub fn rollback(&mut self, t: Transaction) -> Result<(), Refusal>
        ensures refusal { refused result ≡ says self.old.mode self.old.begun (Use t.number) }
        ensures kept { KeptIfRefused result self.old self.new }
        ensures mode { refused result ≡ None → self.new.mode ≡ Ready }
        ensures fresh { refused result ≡ None → Fresh self.old.memory self.old.stored.rows self.new.memory }
        ensures stored { self.new.stored ≡ self.old.stored }
        ensures others { ButRun self.old self.new }
    {
        let number = t.end();
        self.admit(Call::Use { number })?;
        self.clear(Mode::Ready, self.stored);
        Ok(())
    }
}
