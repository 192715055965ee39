// One stored run tried: by its calls, one after the other, or as a rehearsal.
use crate::calls::steps_of;
use crate::stored::Stored;
use crate::tables::{ACTORS, LINKS, PAIRS, Tables, change};
use crate::transcript::{STALE, transcript};
use guards::Guard;
use paths::{Algebra, Delay, Reach};
use planner::{Slip, plan};
use reader::{Counts, read};
use records::{Actor, Fault, Link};
use running::Step;
use runs::{Run, open, rehearse};
use std::alloc::Global;
use std::io;

/// How the calls of a stored run are made. An enum of two, each matched in two short functions: a trait would need two types and
/// two blocks to say it.
#[derive(Clone, Copy)]
pub enum Way {
    /// In a run that is opened on the stored lengths, after the changes.
    OneByOne,
    /// By one call that plans, opens, runs and closes.
    Rehearsed,
}

// Makes the calls one after the other, and writes down what each answers. The library's own loop is tried as a rehearsal.
fn make_calls<G: Guard>(run: &mut Run<G>, steps: &mut [Step]) {
    for step in steps.iter_mut() {
        step.answer = run.call(step.call);
    }
}

// Makes the calls one by one, and answers the slip of the plan.
fn run_through<G: Guard>(
    stored: &Stored<'_>,
    tables: &mut Tables,
    counts: Counts,
    row: &mut [G],
    steps: &mut [Step],
) -> Result<Slip, Fault> {
    let n = counts.actors.min(ACTORS);
    let slip = plan(
        &tables.actors[..n],
        &mut tables.links,
        counts.links,
        counts.lead,
        &mut tables.delays,
        &mut tables.reach,
    )?;
    change(stored.changes, &mut tables.actors, &mut tables.links);
    let a = stored.actors.min(ACTORS);
    let l = stored.links.min(LINKS);
    let mut run = open(slip, &tables.actors[..a], &tables.links[..l], row);
    make_calls(&mut run, steps);
    Ok(run.close())
}

// Makes the calls as a rehearsal, and answers the slip of the plan.
fn rehearse_through<G: Guard>(
    tables: &mut Tables,
    counts: Counts,
    row: &mut [G],
    steps: &mut [Step],
) -> Result<Slip, Fault> {
    let n = counts.actors.min(ACTORS);
    rehearse(
        &tables.actors[..n],
        &mut tables.links,
        counts.links,
        counts.lead,
        &mut tables.delays,
        &mut tables.reach,
        row,
        steps,
    )
}

// Whether the run is opened on all that was planned, and on nothing else.
fn is_whole(stored: &Stored<'_>, slip: &Slip) -> bool {
    stored.changes.is_empty()
        && stored.actors >= slip.actors()
        && stored.links >= slip.given().saturating_add(slip.back())
}

// Whether the run can be tried in this way.
fn can_be_tried(stored: &Stored<'_>, slip: &Slip, way: Way) -> bool {
    match way {
        Way::OneByOne => true,
        Way::Rehearsed => is_whole(stored, slip),
    }
}

fn carry_out<G: Guard>(
    stored: &Stored<'_>,
    way: Way,
    row: &mut [G],
    steps: &mut [Step],
) -> Result<Slip, Fault> {
    // Made here and not by a function, whose answer of this size would lie on the stack more than once.
    let mut tables = Tables {
        actors: [Actor::default(); ACTORS],
        links: [Link::default(); LINKS],
        delays: [Delay::stay(); PAIRS],
        reach: [Reach::none(); PAIRS],
    };
    let counts = read(stored.text, &mut tables.actors, &mut tables.links)?;
    match way {
        Way::OneByOne => run_through(stored, &mut tables, counts, row, steps),
        Way::Rehearsed => rehearse_through(&mut tables, counts, row, steps),
    }
}

// Whether the run, tried in this way on these guards, answers as is expected; none where it cannot be tried in this way.
fn agrees_on<G: Guard>(
    heap: Global,
    stored: &Stored<'_>,
    way: Way,
    row: &mut [G],
) -> io::Result<Option<bool>> {
    let mut steps = steps_of(heap, stored.calls)?;
    let Ok(slip) = carry_out(stored, way, row, steps.as_mut_slice()) else {
        return Ok(Some(false));
    };
    if !can_be_tried(stored, &slip, way) {
        return Ok(None);
    }
    let told = transcript(heap, steps.as_slice(), row)?;
    Ok(Some(told.as_bytes() == stored.expected))
}

/// Whether the run, tried in this way, answers as is expected; none where it cannot be tried in this way.
pub fn agrees<G: Guard>(heap: Global, stored: &Stored<'_>, way: Way) -> io::Result<Option<bool>> {
    let Ok(stale) = G::fresh(STALE.count, STALE.size) else {
        return Ok(Some(false));
    };
    let mut row = vec![in heap; stale; stored.row]?;
    agrees_on(heap, stored, way, row.as_mut_slice())
}
