// The checks up to deadlock, and the least delays without back links.
ghost use Rattle.std.specs.Prelude.{◌≡◌, [], length, OnOk};
ghost use Rattle.records.specs.Faults.{told};
ghost use Rattle.planning.specs.Planning.{drawing, surveyed};
ghost use Rattle.planner.specs.Within.{Sound};

use crate::checks::{check_cycles, check_tables};
use crate::graph::Graph;
use crate::pairs::Pairs;
use paths::{Delay, Reach};
use planning::Sight;
use records::{Actor, Fault, Link};

// Checks a drawing: its tables, the first `given` of its links, its lead and the two workspaces (refusals 5 to 10,
// which change nothing), and that no cycle has total delay 0 (refusal 11). Then the first n × n entries of `reach`
// tell who is reached by delay-free edges, also after refusal 11, and those of `delays` hold the least delays, row by
// sender. Later entries stand.
// What is lent comes one by one, as to `plan`. Both tables have one lifetime, since the graph holds them.
pub(crate) fn survey<'d>(
    actors: &'d [Actor],
    links: &'d [Link],
    given: usize,
    lead: u32,
    delays: &mut [Delay],
    reach: &mut [Reach],
) -> Result<(), Fault>
    ensures answer { result ≡ (surveyed (drawing actors.now links.now given lead delays.old reach.old)).answer }
    ensures view { told (λ _. []) result ≡ told (λ _. []) (surveyed (drawing actors.now links.now given lead delays.old reach.old)).answer }
    ensures delays { delays.new ≡ (surveyed (drawing actors.now links.now given lead delays.old reach.old)).delays }
    ensures reach { reach.new ≡ (surveyed (drawing actors.now links.now given lead delays.old reach.old)).reach }
    ensures sound { OnOk result (Sound (length actors.now) links.now given (length delays.old) (length reach.old)) }
{
    check_tables(actors, links, given, lead, delays.len(), reach.len())?;
    let graph = Graph {
        actors,
        links: &links[..given],
    };
    graph.fill(reach, Sight::Directed);
    let n = actors.len();
    let free = Pairs {
        cells: &reach[..n * n],
        n,
    };
    check_cycles(&free)?;
    graph.fill(delays, Sight::Directed);
    Ok(())
}
