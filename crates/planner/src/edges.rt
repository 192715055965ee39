// The edges of a drawing: the processors' orders, and the links.
ghost use Rattle.std.specs.Prelude.{◌≡◌, ℕ, ◌+◌, ◌<◌, ◌≤◌, List, length, IfSome};
ghost use Rattle.planning.specs.Edges.{last_on, order_edge};

use records::{Actor, Edge};

// The highest of these actors that is on the processor.
fn last_on(actors: &[Actor], processor: u32) -> Option<usize>
    ensures value { result ≡ last_on actors.now processor (length actors.now) }
    ensures within { IfSome result (λ u. u < length actors.now) }
{
    actors
        .iter()
        .rposition(|actor| actor.processor == processor)
}

// The one edge of its processor's order that enters `v`.
pub(crate) fn order_edge(actors: &[Actor], v: usize) -> Edge
    requires { v < length actors.now }
    ensures value { result ≡ order_edge actors.now v }
    ensures within { (result.sender < length actors.now) × (result.receiver < length actors.now) }
{
    let processor = actors[v].processor;
    let (sender, delay) = match last_on(&actors[..v], processor) {
        Some(before) => (before, 0),
        None => (last_on(actors, processor).unwrap_or(v), 1),
    };
    Edge {
        sender,
        receiver: v,
        delay,
    }
}
