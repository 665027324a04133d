// A report of calls: a row for each call, with its answer and what the card then holds.
use card::{Card, CardFault};
use std::alloc::Global;
use std::fmt;

/// The files that the report looks at after each call.
const FILES: [&str; 2] = ["notes", "trace"];

/// The most bytes of a file that the report shows.
const SHOWN: usize = 27;

/// What a call that was not refused tells.
// A trait of our own: Display cannot be given to () and to an Option.
pub trait Told: Drop {
    fn tell<W: fmt::Write>(&self, f: &mut fmt::Formatter<W>) -> fmt::Result;
}

/// A call that tells nothing.
impl Told for () {
    fn tell<W: fmt::Write>(&self, f: &mut fmt::Formatter<W>) -> fmt::Result {
        f.write_str("done")
    }
}

/// A call that tells a length, or that there is no file.
impl Told for Option<u32> {
    fn tell<W: fmt::Write>(&self, f: &mut fmt::Formatter<W>) -> fmt::Result {
        match self {
            None => f.write_str("absent"),
            Some(length) => write!(f, "{length} bytes"),
        }
    }
}

/// A read, which tells bytes.
impl<const N: usize> Told for [u8; N] {
    fn tell<W: fmt::Write>(&self, f: &mut fmt::Formatter<W>) -> fmt::Result {
        let quoted = Quoted(self);
        write!(f, "{quoted}")
    }
}

/// Bytes in quotes, with a dot for each that is no text.
#[derive(Clone, Copy)]
struct Quoted<'a>(&'a [u8]);

impl fmt::Display for Quoted<'_> {
    fn fmt<W: fmt::Write>(&self, f: &mut fmt::Formatter<W>) -> fmt::Result {
        f.write_char('\'')?;
        for byte in self.0 {
            let shown = match *byte {
                32..=126 => char::from(*byte),
                _ => '.',
            };
            f.write_char(shown)?;
        }
        f.write_char('\'')
    }
}

/// An answer in words: what the call tells, or the refusal, with its cause's number and its origin.
#[derive(Drop)]
struct Answer<T>(Result<T, CardFault>);

/// The words of an answer, on the heap: so they can fill a column of a table.
pub fn words<T: Told>(heap: Global, answer: Result<T, CardFault>) -> anyhow::Result<String> {
    Ok(Answer(answer).to_string(heap)?)
}

impl<T: Told> fmt::Display for Answer<T> {
    fn fmt<W: fmt::Write>(&self, f: &mut fmt::Formatter<W>) -> fmt::Result {
        match &self.0 {
            Ok(told) => told.tell(f),
            Err(fault) => {
                let CardFault { cause, origin, .. } = *fault;
                let number = cause.number();
                write!(f, "refused: {cause} ({number}), origin {origin}")
            }
        }
    }
}

/// The file's first bytes in quotes; none of a file that is absent or is not read.
fn held<C: Card>(heap: Global, card: &mut C, name: &str) -> anyhow::Result<Option<String>> {
    let Ok(Some(length)) = card.length(name.as_bytes()) else {
        return Ok(None);
    };
    let mut buffer = [0u8; SHOWN];
    // as, since no From goes from u32 to usize
    let shown = (length as usize).min(SHOWN);
    let answer = card.read(name.as_bytes(), 0, &mut buffer[0..shown]);
    if answer.is_err() {
        return Ok(None);
    }
    Ok(Some(Quoted(&buffer[0..shown]).to_string(heap)?))
}

/// Each present file with what it holds.
// The program of power cuts lists lengths so: the two share no crate, and a library has no heap.
pub fn holdings<C: Card>(heap: Global, card: &mut C) -> anyhow::Result<String> {
    let mut files = Vec::new(heap);
    for name in FILES {
        if let Some(text) = held(heap, card, name)? {
            files.push(format!(in heap; "{name} {text}")?)?;
        }
    }
    if files.is_empty() {
        return Ok(String::from_str(heap, "no file")?);
    }
    Ok(files.join(heap, ", ")?)
}

/// A report that is being printed: its calls so far, and how many of them were refused.
#[derive(Drop)]
pub struct Report<'a> {
    rt: &'a HostRuntime,
    calls: u32,
    refused: u32,
}

impl Report<'_> {
    /// A report with its title and the header of its table.
    pub fn begin<'a>(rt: &'a HostRuntime, title: &str) -> anyhow::Result<Report<'a>> {
        println!(rt; "{title}\n")?;
        println!(rt;
            "{:>4}  {:<32}{:<34}{}",
            "call", "asked", "answered", "the card then holds"
        )?;
        Ok(Report {
            rt,
            calls: 0,
            refused: 0,
        })
    }

    /// A row of the table: what was asked, what that answered, and what the card then holds.
    pub fn row<T: Told, C: Card>(
        &mut self,
        asked: &str,
        answer: Result<T, CardFault>,
        card: &mut C,
    ) -> anyhow::Result<()> {
        let heap = self.rt.alloc();
        // counted row by row, since a row is printed at once and no list of rows is kept
        self.calls = self.calls.saturating_add(1);
        self.refused = self.refused.saturating_add(u32::from(answer.is_err()));
        let call = self.calls;
        let answered = words(heap, answer)?;
        let holds = holdings(heap, card)?;
        println!(self.rt; "{call:>4}  {asked:<32}{answered:<34}{holds}")?;
        Ok(())
    }

    /// Ends the report with its counts.
    pub fn end(self) -> anyhow::Result<()> {
        let Report { rt, calls, refused } = self;
        println!(rt; "\n{calls} calls, {refused} refused")?;
        Ok(())
    }
}
