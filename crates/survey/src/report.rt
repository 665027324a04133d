// What is told of a journal.

/// What a database's journal was found to be: absent, spent, or hot, with so many page records.
// No Option of two cases: a report says one of three words, by a rule of the project
// (docs/COMMIT-AND-RECOVERY.md).
#[derive(Clone, Copy, PartialEq, Eq, Debug)]
pub enum Found {
    None,
    Spent,
    Hot { records: u32 },
}
