// A run over borrowed tables and a borrowed row of guards.
ghost use Rattle.std.specs.Prelude.{◌≡◌, Ok};
ghost use Rattle.runs.specs.Openings.{TablesFit};

use crate::checks::ENTRIES;
use crate::turns::PROCESSORS;
use guards::Guard;
use planner::Slip;
use records::{Actor, Fault, Link};
use running::Entry;

mod acting;
mod asking;
mod calling;
mod closing;
mod opening;

pub use opening::open;

// What a run reads, and whether it is sound: an unsound run keeps the refusal of every call beside tables of any kind.
#[derive(Clone, Copy)]
struct Tables<'actors, 'links> {
    actors: &'actors [Actor],
    links: &'links [Link],
    sound: Result<(), Fault>,
    ghost fit: { (sound ≡ Ok tt → TablesFit actors.now links.now) },
}

/// A plan that is carried out. It holds the slip of its plan, so that no second run can be opened on it, until it is closed.
pub struct Run<'actors, 'links, 'row, G: Guard> {
    slip: Slip,
    tables: Tables<'actors, 'links>,
    row: &'row mut [G],
    // Arrays, since nothing is allocated: one entry for each actor that a drawing can have, one turn for each processor.
    entries: [Entry; ENTRIES],
    turns: [usize; PROCESSORS],
}
