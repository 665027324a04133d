// One page that a savepoint saved.
use page_map::PAGE;

/// What a page was when it was saved.
#[derive(Clone, Copy, Default)]
pub enum Was {
    /// It was changed already, to these bytes.
    Changed([u8; PAGE]),
    /// It was as the file has it.
    Unchanged,
    /// It was not there yet.
    #[default]
    Absent,
}

/// A saved page: by which savepoint, of which database, which page, and what it was.
#[derive(Clone, Copy, Default)]
pub struct SavedPage {
    // no Option: the top savepoint's number is how many stand, so 0 says that none does, and a release of s
    // leaves a row to s - 1 with no case of its own
    pub level: usize,
    pub database: usize,
    pub page: u32,
    pub was: Was,
}
