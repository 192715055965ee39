// The graph that actors and links span.
ghost use Rattle.std.specs.Prelude.{◌≤◌, length};
ghost use Rattle.planner.specs.Within.{EndsBelow};

use records::{Actor, Link};

/// The actors and links that tables are filled from: few actors, which the links join.
#[derive(Drop)]
pub(crate) struct Graph<'g> {
    pub(crate) actors: &'g [Actor],
    pub(crate) links: &'g [Link],
    ghost few: { length actors.now ≤ 64 },
    ghost ends: { EndsBelow (length actors.now) links.now },
}
