// A walk over the pages of a map.
ghost use Rattle.std.specs.Prelude.{◌≡◌};
ghost use Rattle.page_map.specs.Examples.{Examples};
ghost use Rattle.page_map.specs.Listed.{above, AboveLaw};
ghost use Rattle.page_map.specs.Walks.{left, pages_in};

use crate::PageMap;

/// The pages of a map that are still to come, in ascending order.
#[derive(Drop)]
pub struct Pages<'a> {
    map: Option<&'a PageMap>,
    after: u32,
}

impl<'a> Pages<'a> {
    /// All pages of the map; where there is no map, no page. The contract carries the law of their list:
    /// it ascends, and has each page of the set within its bounds once and no other; and a small map.
    #[tactic(auto, unfolding(crate::specs::Walks::left))]
    pub fn new(map: Option<&'a PageMap>) -> Pages<'a>
        ensures is { left result ≡ above (pages_in map.entry) 0 4096 }
        ensures law { AboveLaw }
        ensures examples { Examples }
    {
        Pages { map, after: 0 }
    }
}

impl Iterator for Pages<'_> {
    ghost use Rattle.std.specs.Iterator.{YieldsFirst, item_count};

    type Item = u32;

    ghost next_gives = { YieldsFirst left };

    ghost remaining = { item_count left };

    fn next(&mut self) -> Option<u32> {
        self.after = self.map?.next_above(self.after)?;
        Some(self.after)
    }
}
