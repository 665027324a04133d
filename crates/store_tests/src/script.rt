// Calls of a set as data, so that a table can have them, and what they are answered.
use card::Card;
use journal::PAGE;
use refusal::Refusal;
use std::process::Abort;
use store::{Set, Transaction};

/// What the tests write into a page.
pub const SEVENS: [u8; PAGE] = [7; PAGE];

/// A call of a set in a transaction: a read or a write goes to a database, by a page and a number of
/// bytes.
#[derive(Clone, Copy, Debug)]
pub enum Call {
    Read(usize, u32, usize),
    Write(usize, u32, usize),
    Size(usize),
    Savepoint,
    Release(usize),
}

/// What a good call tells.
#[derive(Clone, Copy, PartialEq, Eq, Debug)]
pub enum Told {
    /// Nothing more.
    Done,
    /// A size, or a savepoint's number.
    Number(usize),
    /// Whether the page shows sevens.
    Sevens(bool),
}

/// A call's answer.
pub type Answer = Result<Told, Refusal>;

/// A byte more than a page has.
const LONG: usize = PAGE + 1;

/// Makes a call with a token; what it writes is sevens. A refused read leaves the bytes as they were.
fn answer_to<C: Card>(rt: &impl Abort, set: &mut Set<C>, t: &Transaction, call: Call) -> Answer {
    match call {
        Call::Read(database, page, length) => {
            let mut bytes = [9u8; LONG];
            let answer = set.read(database, page, &mut bytes[0..length.min(LONG)]);
            assert!(rt; answer.is_ok() || bytes == [9; LONG], "{call:?}");
            answer?;
            Ok(Told::Sevens(bytes[0..PAGE] == SEVENS[..]))
        }
        Call::Write(database, page, length) => {
            set.write(t, database, page, &SEVENS[0..length.min(PAGE)])?;
            Ok(Told::Done)
        }
        // as, since no From takes a u32 to a usize
        Call::Size(database) => Ok(Told::Number(set.size(database)? as usize)),
        Call::Savepoint => Ok(Told::Number(set.savepoint(t)?)),
        Call::Release(savepoint) => {
            set.release(t, savepoint)?;
            Ok(Told::Done)
        }
    }
}

/// Makes calls with a token, in turn, and checks their answers.
pub fn check_calls<C: Card>(
    rt: &impl Abort,
    set: &mut Set<C>,
    t: &Transaction,
    calls: &[(Call, Answer)],
) {
    for &(call, answer) in calls {
        assert_eq!(rt; answer_to(rt, set, t, call), answer, "{call:?}");
    }
}
