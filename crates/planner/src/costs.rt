// What synchronization costs in one iteration, before and after planning.
ghost use Rattle.std.specs.Prelude.{◌≡◌, ◌<◌, ◌≤◌, length};
ghost use Rattle.planning.specs.Costs.{link_cost_before, cost_before, link_cost_after, cost_after};
ghost use Rattle.planning.specs.Backs.{count};
ghost use Rattle.planner.specs.Views.{seen};
ghost use Rattle.planner.specs.Within.{EndsBelow};

use crate::ground::Ground;
use crate::marks::is_local;
use records::{Edge, Link, Mark};

// 4 for a cross link between two groups, 2 for one within a group.
fn link_cost_before(basis: &Ground, link: Link) -> u32
    requires { (link.sender < length basis.now.actors.now) × (link.receiver < length basis.now.actors.now) }
    ensures value { let g = seen basis.now in result ≡ link_cost_before g.actors (count g) g.delays link }
    ensures bound { result ≤ 4 }
{
    if is_local(basis.actors, Edge::from(link)) {
        return 0;
    }
    if basis.same_group(link.sender as usize, link.receiver as usize) {
        return 2;
    }
    4
}

pub(crate) fn cost_before(basis: &Ground, links: &[Link]) -> u32
    requires few { length links.now ≤ 256 }
    requires ends { EndsBelow (length basis.now.actors.now) links.now }
    ensures { let g = seen basis.now in result ≡ cost_before g.actors (count g) g.delays links.now }
{
    links
        .iter()
        .map(|link| link_cost_before(basis, *link))
        .sum()
}

// 2 for a kept or back link, by its mark.
fn link_cost_after(link: Link) -> u32
    ensures value { result ≡ link_cost_after link }
    ensures bound { result ≤ 2 }
{
    if link.has_mark(Mark::Kept) || link.has_mark(Mark::Back) {
        2
    } else {
        0
    }
}

pub(crate) fn cost_after(links: &[Link]) -> u32
    requires { length links.now ≤ 271 }
    ensures { result ≡ cost_after links.now }
{
    links.iter().map(|link| link_cost_after(*link)).sum()
}
