// The fault of a call that an image refused.
ghost use Rattle.std.specs.Prelude.{◌≡◌};
ghost use Rattle.image.specs.Blamed.{blamed};

use card::{CardCall, CardFault, Cause};

/// The answer of an image as the answer of a card's call.
pub fn blame<T>(answer: Result<T, Cause>, call: CardCall, origin: u8) -> Result<T, CardFault>
    ensures { result ≡ blamed call origin answer }
{
    answer.map_err(|cause| CardFault {
        cause,
        call,
        origin,
    })
}
