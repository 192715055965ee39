// Planning: dropped waits, back links, sizes and costs.
ghost use Rattle.std.specs.Prelude.{◌≡◌, ◌+◌, ◌*◌, ◌<◌, ◌≤◌, ◌++◌, map, length, take, drop, IfOk};
ghost use Rattle.records.specs.Faults.{told};
ghost use Rattle.records.specs.Tables.{link_edge};
ghost use Rattle.paths.specs.Models.{reach_ops};
ghost use Rattle.planning.specs.Backs.{backs};
ghost use Rattle.planning.specs.Costs.{cost_before, cost_after};
ghost use Rattle.planning.specs.Edges.{orders};
ghost use Rattle.planning.specs.Planning.{drawing, over, plan_totals, accepted, planned, base_delays};
ghost use Rattle.planning.specs.Tables.{parts};
ghost use Rattle.meaning.specs.Promises.{Promise};
ghost use Rattle.planner.specs.Slips.{slip_of, slip_answer, slip_values};
ghost use Rattle.planner.specs.Steps.{ground_of, with_backs, delays_over, finished};
ghost use Rattle.planner.specs.Within.{EndsBelow, Sound};
ghost use Rattle.planner.specs.Pairs.{pair_count};

use crate::costs::{cost_after, cost_before};
use crate::graph::Graph;
use crate::ground::Ground;
use crate::marks::mark_links;
use crate::pairs::Pairs;
use crate::sizes::size_links;
use crate::surveys::survey;
use paths::{Delay, Reach};
use planning::Sight;
use records::{Actor, Fault, Link};

/// The proof that a drawing was accepted, with its counts and costs. Only planning makes one, and it cannot be copied.
#[derive(Drop)]
pub struct Slip {
    actors: usize,
    given: usize,
    back: usize,
    lead: u32,
    before: u32,
    after: u32,
}

impl Slip {
    /// How many actors the drawing has.
    pub fn actors(&self) -> usize
        ensures { result ≡ self.now.actors }
    {
        self.actors
    }

    /// How many links were given.
    pub fn given(&self) -> usize
        ensures { result ≡ self.now.given }
    {
        self.given
    }

    /// How many back links planning added.
    pub fn back(&self) -> usize
        ensures { result ≡ self.now.back }
    {
        self.back
    }

    /// The delay of the closing links.
    pub fn lead(&self) -> u32
        ensures { result ≡ self.now.lead }
    {
        self.lead
    }

    /// What synchronization costs with every cross link.
    pub fn before(&self) -> u32
        ensures { result ≡ self.now.before }
    {
        self.before
    }

    /// What synchronization costs with the kept and back links.
    pub fn after(&self) -> u32
        ensures { result ≡ self.now.after }
    {
        self.after
    }
}

// Finds the parts, tells the cost before, and appends the back links; answers where they end, and that cost.
// Actors and delays have one lifetime, since the ground holds them.
fn add_back_links<'d>(
    actors: &'d [Actor],
    links: &mut [Link],
    given: usize,
    lead: u32,
    delays: &'d [Delay],
    reach: &mut [Reach],
) -> (usize, u32)
    requires { Sound (length actors.now) links.old given (length delays.now) (length reach.old) }
    ensures links { links.new ≡ with_backs links.old given (backs (ground_of actors.now delays.now (take given links.old)) lead) }
    ensures reach { reach.new ≡ over (parts (length actors.now) (orders actors.now ++ map link_edge (take given links.old))) reach.old }
    ensures end { result.0 ≡ given + length (backs (ground_of actors.now delays.now (take given links.old)) lead) }
    ensures cost { result.1 ≡ cost_before actors.now (length actors.now) delays.now (take given links.old) }
    ensures within { result.0 ≤ given + 15 }
{
    let n = actors.len();
    let graph = Graph {
        actors,
        links: &links[..given],
    };
    graph.fill(reach, Sight::Loose);
    let delays = Pairs { cells: delays, n };
    let joined = Pairs {
        cells: &reach[..n * n],
        n,
    };
    let ground = Ground {
        actors,
        delays,
        joined,
    };
    let cost = cost_before(&ground, &links[..given]);
    let found = ground.back_links(lead);
    let back = found.as_slice();
    let end = given + back.len();
    links[given..end].copy_from_slice(back);
    (end, cost)
}

// Marks and sizes the links, of which the first `given` are given; answers the cost after.
fn mark_and_size(actors: &[Actor], links: &mut [Link], given: usize, delays: &mut [Delay]) -> u32
    requires few { length actors.now ≤ 64 }
    requires counts { (given ≤ length links.old) × (length links.old ≤ 271) }
    requires room { pair_count actors.now ≤ length delays.old }
    requires ends { EndsBelow (length actors.now) links.old }
    ensures links { links.new ≡ finished actors.now given links.old }
    ensures delays { delays.new ≡ over (delays_over actors.now links.old) delays.old }
    ensures cost { result ≡ cost_after (finished actors.now given links.old) }
{
    let n = actors.len();
    mark_links(actors, links, given, delays);
    let graph = Graph { actors, links };
    graph.fill(delays, Sight::Directed);
    let least = Pairs {
        cells: &delays[..n * n],
        n,
    };
    size_links(links, &least);
    cost_after(links)
}

// Plans a drawing that passed the survey.
fn plan_live(
    actors: &[Actor],
    links: &mut [Link],
    given: usize,
    lead: u32,
    delays: &mut [Delay],
    reach: &mut [Reach],
) -> Slip
    requires sound { Sound (length actors.now) links.old given (length delays.old) (length reach.old) }
    requires surveyed { take (pair_count actors.now) delays.old ≡ base_delays (drawing actors.now links.old given lead delays.old reach.old) }
    ensures slip { result ≡ slip_of (plan_totals (drawing actors.now links.old given lead delays.old reach.old)) }
    ensures links { links.new ≡ (accepted (drawing actors.now links.old given lead delays.old reach.old)).links }
    ensures delays { delays.new ≡ (accepted (drawing actors.now links.old given lead delays.old reach.old)).delays }
    ensures room { result.given + result.back ≤ length links.old }
    ensures reach { reach.new ≡ (accepted (drawing actors.now links.old given lead delays.old reach.old)).reach }
{
    let n = actors.len();
    let (all, before) = add_back_links(actors, links, given, lead, &delays[..n * n], reach);
    let after = mark_and_size(actors, &mut links[..all], given, delays);
    Slip {
        actors: n,
        given,
        back: all - given,
        lead,
        before,
        after,
    }
}

/// Plans a drawing: the whole actor table, the first `given` links of the link table, whose marks and sizes are
/// ignored, and the lead. Refusals 5 to 10 change nothing; after refusal 11 the first n × n entries of `reach` tell who is
/// reached by delay-free edges. On success each given link has its mark and size, the back links stand after the given
/// ones, the first n × n entries of `delays` hold the least delays with back links, row by sender, and those of `reach`
/// tell who shares a part. All else stands. What the plan means for the unit is `Promise`.
// The tables are lent one by one: from a struct of `&mut`s that is passed by value each `x.new` of the contract would be
// a part of its exit.
pub fn plan(
    actors: &[Actor],
    links: &mut [Link],
    given: usize,
    lead: u32,
    delays: &mut [Delay],
    reach: &mut [Reach],
) -> Result<Slip, Fault>
    ensures answer { result ≡ slip_answer (planned (drawing actors.now links.old given lead delays.old reach.old)).answer }
    ensures view { told slip_values result ≡ told slip_values (slip_answer (planned (drawing actors.now links.old given lead delays.old reach.old)).answer) }
    ensures links { links.new ≡ (planned (drawing actors.now links.old given lead delays.old reach.old)).links }
    ensures delays { delays.new ≡ (planned (drawing actors.now links.old given lead delays.old reach.old)).delays }
    ensures room { IfOk result (λ s. s.given + s.back ≤ length links.old) }
    ensures reach { reach.new ≡ (planned (drawing actors.now links.old given lead delays.old reach.old)).reach }
    ensures promise { Promise (drawing actors.now links.old given lead delays.old reach.old) }
{
    survey(actors, links, given, lead, delays, reach)?;
    Ok(plan_live(actors, links, given, lead, delays, reach))
}
