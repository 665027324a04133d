// One changed page of a database.
use page_map::PAGE;

/// A changed page: of which database, which page, and what it holds now.
#[derive(Clone, Copy, Default)]
pub struct ChangedPage {
    // no struct of database and page: each public call gets the two apart, and would make one only for one
    // line's test
    pub database: usize,
    pub page: u32,
    pub bytes: [u8; PAGE],
}
