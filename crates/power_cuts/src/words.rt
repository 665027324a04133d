// Refusals, and what a recovery found, in words.
use crate::board::FILES;
use recovery::Found;
use refusal::{Refusal, SetFault};
use std::fmt;

/// Where a call of the card was refused: its step, the call and the file.
#[derive(Clone, Copy)]
pub struct Place(pub SetFault);

impl fmt::Display for Place {
    fn fmt<W: fmt::Write>(&self, f: &mut fmt::Formatter<W>) -> fmt::Result {
        let fault = self.0;
        let call = fault.journal.card.call;
        let known = FILES.iter().find(|(number, _)| *number == fault.file);
        let file = known.map_or("another file", |(_, name)| *name);
        match fault.step {
            Some(step) => write!(f, "{step} {call} {file}"),
            None => write!(f, "no step {call} {file}"),
        }
    }
}

/// A refusal by its number, with what goes beside it: for a refused call of the card its cause, where
/// it was, the page record that it is about, its origin.
#[derive(Clone, Copy)]
pub struct Refused(pub Refusal);

impl fmt::Display for Refused {
    fn fmt<W: fmt::Write>(&self, f: &mut fmt::Formatter<W>) -> fmt::Result {
        write!(f, "refused {}", self.0.number())?;
        match self.0 {
            Refusal::Card(fault) => {
                let place = Place(fault);
                let cause = fault.journal.card.cause;
                let number = cause.number();
                let record = fault.journal.record;
                let origin = fault.journal.card.origin;
                write!(
                    f,
                    ": {cause} ({number}) in {place}, record {record}, origin {origin}"
                )
            }
            Refusal::Damaged { file, record } => write!(f, ": file {file}, record {record}"),
            Refusal::NameLength(which)
            | Refusal::NameByte(which)
            | Refusal::Foreign(which)
            | Refusal::Database(which) => write!(f, ": {which}"),
            _ => Ok(()),
        }
    }
}

/// What a commit that was carried out tells: how many journals it left.
#[derive(Clone, Copy)]
pub struct Committed(pub usize);

impl fmt::Display for Committed {
    fn fmt<W: fmt::Write>(&self, f: &mut fmt::Formatter<W>) -> fmt::Result {
        let left = self.0;
        write!(f, "done, {left} journals left")
    }
}

/// What a journal was found to be.
#[derive(Clone, Copy)]
struct Judged(Found);

impl fmt::Display for Judged {
    fn fmt<W: fmt::Write>(&self, f: &mut fmt::Formatter<W>) -> fmt::Result {
        match self.0 {
            Found::None => f.write_str("none"),
            Found::Spent => f.write_str("spent"),
            Found::Hot { records } => write!(f, "hot, {records} written back"),
        }
    }
}

/// What the journals of the three databases were found to be.
#[derive(Clone, Copy)]
pub struct Journals(pub [Found; 4]);

impl fmt::Display for Journals {
    fn fmt<W: fmt::Write>(&self, f: &mut fmt::Formatter<W>) -> fmt::Result {
        let [probe, notes, trace, _] = self.0.map(Judged);
        write!(f, "journals: probe {probe}; notes {notes}; trace {trace}")
    }
}
