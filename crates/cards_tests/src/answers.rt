// What calls of a card answer.
use card::{CardCall, CardFault, Cause};
use std::fmt::Debug;
use std::process::Abort;

/// The answer of a call that is refused for a cause by the card or layer of an origin.
pub fn refused<T: Drop>(call: CardCall, cause: Cause, origin: u8) -> Result<T, CardFault> {
    Err(CardFault {
        cause,
        call,
        origin,
    })
}

/// Checks answers, each beside the one that it must be.
pub fn check<T: PartialEq + Debug>(rt: &impl Abort, rows: &[(T, T)]) {
    for (row, (answer, expected)) in rows.iter().enumerate() {
        assert_eq!(rt; answer, expected, "row {row}");
    }
}
