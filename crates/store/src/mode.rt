// What a set is doing, and what a call asks of that.

/// What a set is doing: it is cold until a recovery, ready between transactions, or runs one.
#[derive(Clone, Copy)]
pub enum Mode {
    Cold,
    Ready,
    Running { number: u32, nonce: u32 },
}

/// What a call asks of the mode: to begin a transaction, to read, or to use a transaction. Ending one is a use of it.
// An enum of calls, since the call is matched together with the mode, in place: a rule of the project
// (docs/SET.md).
#[derive(Clone, Copy)]
pub enum Call {
    Begin { nonce: u32 },
    Read,
    Use { number: u32 },
}
