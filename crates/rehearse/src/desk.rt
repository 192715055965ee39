// The memory that is lent to a rehearsal: arrays, which a program brings to a library that allocates nothing.
use guards::{Guard, Pointers};
use paths::{Algebra, Delay, Reach};
use planner::Slip;
use reader::read;
use records::{Actor, Fault, Link};
use running::Step;
use runs::rehearse;

const ACTORS: usize = 64;

// As many as there can be given and back links.
pub const LINKS: usize = 271;

const PAIRS: usize = 4096;

/// Reads a drawing, plans it into the links, and makes the calls of the steps in a run of the plan.
pub fn rehearse_text(text: &[u8], links: &mut [Link], steps: &mut [Step]) -> Result<Slip, Fault> {
    let mut actors = [Actor::default(); ACTORS];
    let mut delays = [Delay::stay(); PAIRS];
    let mut reach = [Reach::none(); PAIRS];
    let counts = read(text, &mut actors, links)?;
    let mut row = [Pointers::fresh(0, 1)?; LINKS];
    let n = counts.actors.min(ACTORS);
    rehearse(
        &actors[0..n],
        links,
        counts.links,
        counts.lead,
        &mut delays,
        &mut reach,
        &mut row,
        steps,
    )
}
