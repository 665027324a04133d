// The memory half of a transaction: the pages changed so far, and the savepoints to step back to.
// It calls no card.
#![tactic(auto)]

mod changed_page;
mod changed_pages;
mod memory;
mod saved_page;
mod saved_pages;

pub use changed_page::ChangedPage;
pub use changed_pages::CHANGED_LIMIT;
pub use memory::{Memory, SAVEPOINTS};
pub use page_map::{DATABASES, PAGE_LIMIT, PageMap, is_page};
pub use saved_page::{SavedPage, Was};
pub use saved_pages::SAVED_LIMIT;
