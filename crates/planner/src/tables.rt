// Tables over the pairs of actors: from the edges of a drawing to the best paths.
ghost use Rattle.std.specs.Prelude.{◌≡◌, ℕ, ◌+◌, ◌*◌, ◌<◌, ◌≤◌, List, ◌++◌, map, length, drop, replicate, slice_index_or};
ghost use Rattle.records.specs.Tables.{no_link, link_edge};
ghost use Rattle.planning.specs.Edges.{orders, without};
ghost use Rattle.planning.specs.Tables.{lay, lay_seen, laid, paths_over};
ghost use Rattle.planner.specs.Skipping.{skips, but};
ghost use Rattle.planner.specs.Pairs.{pair_count};

use crate::edges::order_edge;
use crate::graph::Graph;
use crate::pairs::place;
use paths::{Algebra, close};
use planning::Sight;
use records::Edge;

// No path anywhere in the first `count` cells.
fn clear<T: Algebra>(cells: &mut [T], count: usize)
    requires { count ≤ length cells.old }
    ensures { cells.new ≡ replicate count T.ops.none ++ drop count cells.old }
{
    // Tried as `fill`, whose clones a type parameter does not promise; the checker does not cover `fill_with(T::none)`.
    for cell in &mut cells[..count] {
        *cell = T::none();
    }
}

// Whether link j, which is `edge`, is left out: `skip` has a twin of it, with its number or a lower one.
fn is_skipped(skip: Option<(usize, Edge)>, j: usize, edge: Edge) -> bool
    ensures { result ≡ skips skip j edge }
{
    skip.is_some_and(|(i, like)| i <= j && like == edge)
}

// The cells are lent as a slice: with a struct that borrows them for writing, each method would have to say that the
// borrow is still the same, which is more than that there is room.
impl Graph<'_> {
    // The edge joins the choice at its entry.
    fn lay_edge<T: Algebra>(&self, cells: &mut [T], edge: Edge)
        requires room { pair_count self.now.actors.now ≤ length cells.old }
        requires ends { (edge.sender < length self.now.actors.now) × (edge.receiver < length self.now.actors.now) }
        ensures { cells.new ≡ lay T.ops (length self.now.actors.now) cells.old edge }
    {
        let at = place(self.actors.len(), edge.sender, edge.receiver);
        cells[at] = cells[at].choose(T::edge(edge.delay));
    }

    fn lay_seen<T: Algebra>(&self, cells: &mut [T], sight: Sight, edge: Edge)
        requires room { pair_count self.now.actors.now ≤ length cells.old }
        requires ends { (edge.sender < length self.now.actors.now) × (edge.receiver < length self.now.actors.now) }
        ensures { cells.new ≡ lay_seen sight T.ops (length self.now.actors.now) cells.old edge }
    {
        // The sight is matched here alone, as in the definition; a closure for it would travel through five functions.
        match sight {
            Sight::Directed => self.lay_edge(cells, edge),
            Sight::Loose => {
                let there = Edge { delay: 0, ..edge };
                let back = Edge {
                    sender: edge.receiver,
                    receiver: edge.sender,
                    delay: 0,
                };
                self.lay_edge(cells, there);
                self.lay_edge(cells, back);
            }
        }
    }

    // The steps of all processors' orders.
    fn lay_orders<T: Algebra>(&self, cells: &mut [T], sight: Sight)
        requires { pair_count self.now.actors.now ≤ length cells.old }
        ensures { cells.new ≡ laid sight T.ops (length self.now.actors.now) cells.old (orders self.now.actors.now) }
    {
        // By number, since the edge into an actor is found among all actors.
        for v in 0..self.actors.len() {
            self.lay_seen(cells, sight, order_edge(self.actors, v));
        }
    }

    // All links that are not left out.
    fn lay_links<T: Algebra>(&self, cells: &mut [T], sight: Sight, skip: Option<(usize, Edge)>)
        requires { pair_count self.now.actors.now ≤ length cells.old }
        ensures { cells.new ≡ laid sight T.ops (length self.now.actors.now) cells.old (but skip 0 (map link_edge self.now.links.now)) }
    {
        for (j, link) in self.links.iter().enumerate() {
            let edge = Edge::from(*link);
            if !is_skipped(skip, j, edge) {
                self.lay_seen(cells, sight, edge);
            }
        }
    }

    // The values of the best paths over the orders and the links that are not left out; later cells stand.
    fn fill_but<T: Algebra>(&self, cells: &mut [T], sight: Sight, skip: Option<(usize, Edge)>)
        requires { pair_count self.now.actors.now ≤ length cells.old }
        ensures { cells.new ≡ paths_over sight T.ops (length self.now.actors.now) (orders self.now.actors.now ++ but skip 0 (map link_edge self.now.links.now)) ++ drop (pair_count self.now.actors.now) cells.old }
    {
        let n = self.actors.len();
        clear(cells, n * n);
        self.lay_orders(cells, sight);
        self.lay_links(cells, sight, skip);
        // The table is long enough, so the closure does not refuse.
        let _ = close(cells, n);
    }

    /// The values of the best paths over the orders and all links; later cells stand.
    pub(crate) fn fill<T: Algebra>(&self, cells: &mut [T], sight: Sight)
        requires { pair_count self.now.actors.now ≤ length cells.old }
        ensures { cells.new ≡ paths_over sight T.ops (length self.now.actors.now) (orders self.now.actors.now ++ map link_edge self.now.links.now) ++ drop (pair_count self.now.actors.now) cells.old }
    {
        self.fill_but(cells, sight, None);
    }

    /// The same without link i and its twins of higher number.
    pub(crate) fn fill_without<T: Algebra>(&self, cells: &mut [T], sight: Sight, i: usize)
        requires room { pair_count self.now.actors.now ≤ length cells.old }
        requires within { i < length self.now.links.now }
        ensures { cells.new ≡ paths_over sight T.ops (length self.now.actors.now) (orders self.now.actors.now ++ without i (link_edge (slice_index_or self.now.links.now i no_link)) 0 (map link_edge self.now.links.now)) ++ drop (pair_count self.now.actors.now) cells.old }
    {
        let twin = Edge::from(self.links[i]);
        self.fill_but(cells, sight, Some((i, twin)));
    }
}
