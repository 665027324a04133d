// Reading a page: from memory if it is changed, else from the card.
ghost use Rattle.std.specs.Prelude.{◌≡◌, ◌≤◌, [], ◌∷◌, length as count_of};
ghost use Rattle.card.specs.Calls.Op.{read as reads};
ghost use Rattle.names.specs.Files.{file_of};
ghost use Rattle.pager.specs.Changed.{look};
ghost use Rattle.pager.specs.View.{fields};
ghost use Rattle.refusal.specs.Results.{refused};
ghost use Rattle.steps.specs.Tasks.{Went, task, ToldBytes};
ghost use Rattle.store.specs.Calls.{told, ButRun};
ghost use Rattle.store.specs.Reads.{page_refusal, read_refusal, place as place_of, at_reading, LeftBy, Reads, Shows};

use crate::mode::{Call, Mode};
use crate::set::Set;
use card::{Card, Cause};
use journal::PAGE;
use names::Names;
use page_map::page_place;
use refusal::{Refusal, SetFault};
use steps::Site;

/// Fills the buffer with a page of a database from its file.
// A page from 1 to 4,096 is asked for by clauses and no type: a page is told as a number, and the calls, the
// maps and the place in a file take it so.
fn read_page<C: Card>(
    card: &mut C,
    names: &Names,
    database: usize,
    page: u32,
    buffer: &mut [u8; PAGE],
) -> Result<(), SetFault>
    requires first { 1 ≤ page }
    requires last { page ≤ 4096 }
    ensures went { Went C.Card.meaning (task (at_reading database) (file_of names.now database) (reads (place_of page) 512) ∷ []) card.old result card.new }
    ensures bytes { ToldBytes (C.Card.meaning.holds card.old (file_of names.now database)) (place_of page) buffer.old result buffer.new }
{
    let name = names.file(database);
    Site::reading(database).read(card, name.bytes(), page_place(page), buffer)
}

impl<C> Set<C> {
    /// Tests that a page can be read into a buffer of that length.
    fn check_page(&self, database: usize, page: u32, length: usize) -> Result<(), Refusal>
        ensures { refused result ≡ page_refusal self.now.memory database page length }
    {
        let size = self.memory.size(database)?;
        if length != PAGE {
            return Err(Refusal::BufferLength);
        }
        if !(1..=size).contains(&page) {
            return Err(Refusal::Page);
        }
        Ok(())
    }

    /// What the card answered, as the set tells it. After a power failure the set is cold, with nothing
    /// changed; any other fault leaves it.
    fn settle(&mut self, answer: Result<(), SetFault>) -> Result<(), Refusal>
        ensures told { result ≡ told answer }
        ensures left { LeftBy answer self.old.mode self.old.memory self.old.stored.rows self.new.mode self.new.memory }
        ensures stored { self.new.stored ≡ self.old.stored }
        ensures others { ButRun self.old self.new }
    {
        match answer {
            Ok(()) => Ok(()),
            Err(fault) => {
                if let Cause::Power = fault.journal.card.cause {
                    self.clear(Mode::Cold, self.stored);
                }
                Err(Refusal::Card(fault))
            }
        }
    }
}

impl<C: Card> Set<C> {
    /// Fills the buffer with a page of a database as it is now: from memory if it is changed, else by
    /// one read of the card. A refusal leaves the buffer.
    pub fn read(&mut self, database: usize, page: u32, buffer: &mut [u8]) -> Result<(), Refusal>
        ensures read { Reads C.Card.meaning database page self.old buffer.old result self.new buffer.new (read_refusal self.old.mode self.old.begun self.old.memory database page (count_of buffer.old)) (look (fields self.old.memory).changed database page) }
        ensures shows { Shows C.Card.meaning database page self.old result buffer.new }
        ensures begun { self.new.begun ≡ self.old.begun }
        ensures names { self.new.names ≡ self.old.names }
        ensures stored { self.new.stored ≡ self.old.stored }
        ensures buffer { self.new.buffer ≡ self.old.buffer }
    {
        self.admit(Call::Read)?;
        self.check_page(database, page, buffer.len())?;
        if let Some(bytes) = self.memory.get(database, page) {
            buffer.copy_from_slice(bytes);
            return Ok(());
        }
        let whole = buffer.as_mut_array().unwrap();
        let answer = read_page(&mut self.card, &self.names, database, page, whole);
        self.settle(answer)
    }
}
