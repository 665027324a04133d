// A power failure that is told in advance.
ghost use Rattle.std.specs.Prelude.{◌≡◌, Some, None, Ok, Err, MatchResult};
ghost use Rattle.delayed_card.specs.declared.cut.Untold.TheVariants.{NoKept};
ghost use Rattle.delayed_card.specs.Delayed.{next_cut, lost_now, ToldCut};

use halves::{Kept, UnknownKept};

/// Power is to fail at a call from now, with what is then kept.
#[derive(Clone, Copy, PartialEq, Eq, Debug)]
pub struct Cut {
    pub calls: u32,
    pub kept: Kept,
}

/// Why a telling of a power failure is refused.
#[derive(Clone, Copy, PartialEq, Eq, Debug)]
pub enum Untold {
    /// Calls count from 1.
    NoCall,
    /// What is kept is 0, 1 or 2.
    NoKept,
}

impl From<UnknownKept> for Untold {
    ghost from_gives = { λ _ untold. untold ≡ NoKept };

    fn from(_: UnknownKept) -> Untold {
        Untold::NoKept
    }
}

/// The cut at a call from now, with what is kept by its number.
pub fn told(call: u32, kept: u8) -> Result<Cut, Untold>
    ensures { MatchResult result (λ cut. ToldCut call kept None (Ok tt) (Some cut)) (λ e. ToldCut call kept None (Err e) None) }
{
    if call == 0 {
        return Err(Untold::NoCall);
    }
    Ok(Cut {
        calls: call,
        kept: Kept::try_from(kept)?,
    })
}

/// A told cut after one call more.
pub fn after_call(cut: Option<Cut>) -> Option<Cut>
    ensures { result ≡ next_cut cut }
{
    let Cut { calls, kept } = cut?;
    if calls <= 1 {
        return None;
    }
    Some(Cut {
        calls: calls - 1,
        kept,
    })
}

/// What is kept if power is to fail at this call.
pub fn at_call(cut: Option<Cut>) -> Option<Kept>
    ensures { result ≡ lost_now cut }
{
    cut.filter(|c| c.calls <= 1).map(|c| c.kept)
}
