// The sizes of a set's databases, in pages: each is at least 1 and at most 4,096.
#![tactic(auto)]

ghost use Rattle.std.specs.Prelude.{◌≡◌, ◌<◌, ◌≤◌, [], ◌∷◌, MatchOption, slice_index};
ghost use Rattle.sizes.specs.Fitting.{Fitting};

pub use page_map::PAGE_LIMIT;
use page_map::{DATABASES, is_page};

/// The sizes of four databases in pages, each 1 to 4,096.
#[derive(Clone, Copy)]
pub struct Sizes {
    rows: [u32; DATABASES],
    ghost fitting: { Fitting rows },
}

impl Sizes {
    /// One page each.
    pub fn ones() -> Sizes
        ensures { result.rows ≡ 1 ∷ 1 ∷ 1 ∷ 1 ∷ [] }
    {
        Sizes {
            rows: [1; DATABASES],
        }
    }

    /// These sizes, if each is 1 to 4,096.
    pub fn checked(rows: [u32; DATABASES]) -> Option<Sizes>
        ensures { MatchOption result (Fitting rows → ⊥) (λ s. s.rows ≡ rows) }
    {
        if !rows.iter().all(|pages| is_page(*pages)) {
            return None;
        }
        Some(Sizes { rows })
    }

    /// The four sizes.
    pub fn rows(&self) -> [u32; DATABASES]
        ensures { result ≡ self.now.rows }
    {
        self.rows
    }

    /// The size of one database; 1 for a database past the fourth.
    // No Option: both bounds hold for any number, so a caller has no database to test and nothing to unwrap.
    pub fn get(&self, database: usize) -> u32
        ensures is { database < 4 → result ≡ slice_index self.now.rows database }
        ensures some { 1 ≤ result }
        ensures small { result ≤ 4096 }
    {
        *self.rows.get(database).unwrap_or(&1)
    }
}
