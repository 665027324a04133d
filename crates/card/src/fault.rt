// Why a card says no, and which of its calls said it.
ghost use Rattle.std.specs.Prelude.{◌≡◌};
ghost use Rattle.card.specs.Calls.{cause_number};

use std::fmt;

/// Why a call of a card was refused, numbered from 1.
#[derive(Clone, Copy, PartialEq, Eq, Debug)]
pub enum Cause {
    Power = 1,
    Device = 2,
    Absent = 3,
    Present = 4,
    Range = 5,
}

impl Cause {
    /// The number by which the cause is told.
    pub fn number(self) -> u8
        ensures { result ≡ cause_number self }
    {
        self as u8
    }
}

impl fmt::Display for Cause {
    fn fmt<W: fmt::Write>(&self, f: &mut fmt::Formatter<W>) -> fmt::Result {
        f.write_str(match self {
            Cause::Power => "power",
            Cause::Device => "device",
            Cause::Absent => "absent",
            Cause::Present => "present",
            Cause::Range => "range",
        })
    }
}

/// The calls of a card that can be refused.
#[derive(Clone, Copy, PartialEq, Eq, Debug)]
pub enum CardCall {
    Length,
    Read,
    Create,
    Write,
    SetLength,
    Sync,
    Delete,
}

/// The call in words that go before a file's name.
impl fmt::Display for CardCall {
    fn fmt<W: fmt::Write>(&self, f: &mut fmt::Formatter<W>) -> fmt::Result {
        f.write_str(match self {
            CardCall::Length => "length of",
            CardCall::Read => "read",
            CardCall::Create => "create",
            CardCall::Write => "write",
            CardCall::SetLength => "set length of",
            CardCall::Sync => "sync",
            CardCall::Delete => "delete",
        })
    }
}

/// A refused call: why, which call, and the origin that its card or layer was made with.
#[derive(Clone, Copy, PartialEq, Eq, Debug)]
pub struct CardFault {
    pub cause: Cause,
    pub call: CardCall,
    pub origin: u8,
}
