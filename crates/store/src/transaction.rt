// The token of a transaction.
ghost use Rattle.std.specs.Prelude.{◌≡◌, true, false};

/// The token of a transaction. It may not be let go: a commit or a rollback takes it. The number 0 is
/// that of a void token.
// The flag is there for the drop's `requires`, a form that the project asks for. In code it is never false;
// a `requires` that no value at all could meet would be refused as empty.
pub struct Transaction {
    number: u32,
    open: bool,
}

impl Drop for Transaction {
    fn drop(self)
        requires { self.«open» ≡ false }
    {
        let Transaction { number: _, open: _ } = self;
    }
}

impl Transaction {
    /// A token of that number.
    pub(crate) fn new(number: u32) -> Transaction
        ensures number { result.number ≡ number }
        ensures live { result.«open» ≡ true }
    {
        Transaction { number, open: true }
    }

    /// The number of the transaction, 0 if the token is void.
    // No Option: numbers are told from 1, and 0 is that of a void token, by a rule of the project
    // (docs/SET.md).
    pub fn number(&self) -> u32
        ensures { result ≡ self.now.number }
    {
        self.number
    }

    /// Takes the token, and tells its number.
    pub(crate) fn end(self) -> u32
        ensures { result ≡ self.number }
    {
        let Transaction { number, open: _ } = self;
        number
    }
}
