// The back links that are found, in their order.
ghost use Rattle.std.specs.Prelude.{◌≤◌, length};

use crate::checks::BACKS;
use arrayvec::ArrayVec;
use records::Link;

/// At most as many back links as the link table has room for.
#[derive(Drop)]
pub(crate) struct BackLinks {
    links: ArrayVec<Link, BACKS>,
    ghost few: { length links.items ≤ 15 },
}

impl BackLinks {
    ghost use Rattle.std.specs.Prelude.{◌≡◌, [], ◌∷◌, ◌++◌, take};
    ghost use Rattle.planner.specs.Views.{listed};

    /// No link yet.
    pub(crate) fn new() -> BackLinks
        ensures { listed result ≡ [] }
    {
        BackLinks {
            links: ArrayVec::new(),
        }
    }

    /// Adds the link if there is room.
    pub(crate) fn push(&mut self, link: Link)
        ensures { listed self.new ≡ take 15 (listed self.old ++ (link ∷ [])) }
    {
        if !self.links.is_full() {
            self.links.push(link);
        }
    }

    /// The links, in the order in which they were added.
    pub(crate) fn as_slice(&self) -> &[Link]
        ensures { result.now ≡ listed self.now }
    {
        self.links.as_slice()
    }
}
