// How many cells each buffer has.
ghost use Rattle.std.specs.Prelude.{◌≡◌, ◌<◌, ◌≤◌, ◌++◌, length, take, drop};
ghost use Rattle.planning.specs.Marks.{size_of, sized};
ghost use Rattle.planner.specs.Within.{EndsBelow};

use crate::pairs::Pairs;
use paths::{Algebra, Delay};
use records::{Link, Mark};

// The delay and the least delay back, or 0 for a local link.
fn size_of(link: Link, delays: &Pairs<Delay>) -> u32
    requires { (link.sender < delays.now.n) × (link.receiver < delays.now.n) }
    ensures { result ≡ size_of delays.now.n delays.now.cells.now link }
{
    if link.has_mark(Mark::Local) {
        return 0;
    }
    let back = delays.at(link.receiver as usize, link.sender as usize);
    Delay::edge(link.delay).follow(back).value
}

// Writes the sizes of the links, which are marked.
pub(crate) fn size_links(links: &mut [Link], delays: &Pairs<Delay>)
    requires { EndsBelow delays.now.n links.old }
    ensures { links.new ≡ sized delays.now.n delays.now.cells.now links.old }
{
    for link in links {
        link.size = size_of(*link, delays);
    }
}
