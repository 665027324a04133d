// The mode and the call together: whether the call may go on, and what the mode is then.
ghost use Rattle.std.specs.Prelude.{◌≡◌};
ghost use Rattle.refusal.specs.Results.{refused};
ghost use Rattle.store.specs.Calls.{ButMode, KeptIfRefused};
ghost use Rattle.store.specs.Modes.{next, counted, says, OnlyAsks};

use crate::mode::{Call, Mode};
use crate::set::Set;
use refusal::Refusal;

impl<C> Set<C> {
    /// Whether a call may go on in this mode. A call that begins a transaction changes the mode.
    pub(crate) fn admit(&mut self, call: Call) -> Result<(), Refusal>
        ensures refusal { refused result ≡ says self.old.mode self.old.begun call }
        ensures mode { self.new.mode ≡ next self.old.mode self.old.begun call }
        ensures begun { self.new.begun ≡ counted self.old.mode self.old.begun call }
        ensures kept { KeptIfRefused result self.old self.new }
        ensures asked { OnlyAsks call → self.new ≡ self.old }
        ensures others { ButMode self.old self.new }
    {
        match (self.mode, call) {
            (Mode::Ready, Call::Begin { nonce }) if self.begun < u32::MAX => {
                let number = self.begun + 1;
                self.begun = number;
                self.mode = Mode::Running { number, nonce };
                Ok(())
            }
            (Mode::Running { number, .. }, Call::Use { number: asked })
                if asked >= 1 && asked == number => Ok(()),
            (Mode::Ready | Mode::Running { .. }, Call::Read) => Ok(()),
            (Mode::Cold, Call::Read) => Err(Refusal::Cold),
            (Mode::Cold | Mode::Ready | Mode::Running { .. }, _) => Err(Refusal::Transaction),
        }
    }
}
