// Which links are dropped.
ghost use Rattle.std.specs.Prelude.{◌≡◌, ◌*◌, ◌<◌, ◌≤◌, ◌++◌, map, length, take, drop, slice_index_or};
ghost use Rattle.records.specs.Tables.{no_link, link_edge, mark_number};
ghost use Rattle.planning.specs.Marks.{local, redundant, mark_of, marked};
ghost use Rattle.planner.specs.Within.{EndsBelow};
ghost use Rattle.planner.specs.Pairs.{pair_count};

use crate::graph::Graph;
use crate::pairs::Pairs;
use paths::Delay;
use planning::Sight;
use records::{Actor, Edge, Link, Mark};

// Whether both ends are on one processor.
pub(crate) fn is_local(actors: &[Actor], edge: Edge) -> bool
    requires { (edge.sender < length actors.now) × (edge.receiver < length actors.now) }
    ensures { result ≡ local actors.now edge }
{
    actors[edge.sender].processor == actors[edge.receiver].processor
}

impl Graph<'_> {
    // Whether a path without link i, and without its twins of higher number, enforces the wait of link i.
    fn is_redundant(&self, i: usize, delays: &mut [Delay]) -> bool
        requires room { pair_count self.now.actors.now ≤ length delays.old }
        requires within { i < length self.now.links.now }
        ensures value { result ≡ redundant self.now.actors.now (map link_edge self.now.links.now) i (link_edge (slice_index_or self.now.links.now i no_link)) }
        ensures rest { drop (pair_count self.now.actors.now) delays.new ≡ drop (pair_count self.now.actors.now) delays.old }
    {
        let edge = Edge::from(self.links[i]);
        self.fill_without(delays, Sight::Directed, i);
        let least = Pairs {
            cells: delays,
            n: self.actors.len(),
        };
        least.at(edge.sender, edge.receiver).value <= edge.delay
    }

    fn mark_of(&self, i: usize, delays: &mut [Delay]) -> Mark
        requires room { pair_count self.now.actors.now ≤ length delays.old }
        requires within { i < length self.now.links.now }
        ensures value { mark_number result ≡ mark_of self.now.actors.now (map link_edge self.now.links.now) i (link_edge (slice_index_or self.now.links.now i no_link)) }
        ensures rest { drop (pair_count self.now.actors.now) delays.new ≡ drop (pair_count self.now.actors.now) delays.old }
    {
        if is_local(self.actors, Edge::from(self.links[i])) {
            return Mark::Local;
        }
        if self.is_redundant(i, delays) {
            return Mark::Dropped;
        }
        Mark::Kept
    }
}

// Marks the first `given` links, which are the given ones; the others are back links.
pub(crate) fn mark_links(actors: &[Actor], links: &mut [Link], given: usize, delays: &mut [Delay])
    requires few { length actors.now ≤ 64 }
    requires room { pair_count actors.now ≤ length delays.old }
    requires given { given ≤ length links.old }
    requires ends { EndsBelow (length actors.now) links.old }
    ensures links { links.new ≡ marked actors.now (map link_edge links.old) (take given links.old) ++ drop given links.old }
    ensures rest { drop (pair_count actors.now) delays.new ≡ drop (pair_count actors.now) delays.old }
{
    // Each mark reads all links, so no iterator can hold them while it writes one.
    for i in 0..given {
        let graph = Graph { actors, links };
        let mark = graph.mark_of(i, delays);
        links[i].mark = mark.number();
    }
}
