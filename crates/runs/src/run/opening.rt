// Opening a run.
ghost use Rattle.std.specs.Prelude.{◌≡◌, ◌+◌, map, length, take, Ok};
ghost use Rattle.planner.specs.Slips.{totals_of};
ghost use Rattle.running.specs.Claims.{OpensPlans};
ghost use Rattle.running.specs.Runs.{fault_of, open_check, site_of, opened};
ghost use Rattle.runs.specs.Alone.{Stand, guarded_if};
ghost use Rattle.runs.specs.Openings.{turns_if, row_if, GuardsFit};
ghost use Rattle.runs.specs.Seen.{site_of_run, standing_of_run};

use super::{Run, Tables};
use crate::checks::{ENTRIES, actors_of, check_open, links_of};
use crate::rows::set_up_all;
use crate::turns::{PROCESSORS, first_turns};
use guards::Guard;
use planner::Slip;
use records::{Actor, Link};
use running::{Entry, State};

// Cuts the tables to what the slip speaks of, and checks them and the length of the row.
fn cut_tables<'actors, 'links, G: Guard>(
    slip: &Slip,
    actors: &'actors [Actor],
    links: &'links [Link],
    row: usize,
) -> Tables<'actors, 'links>
    ensures actors { result.actors.now ≡ take slip.now.actors actors.now }
    ensures links { result.links.now ≡ take (slip.now.given + slip.now.back) links.now }
    ensures sound { result.sound ≡ open_check G.Guard.LARGEST (totals_of slip.now) actors.now links.now row }
    ensures guards { result.sound ≡ Ok tt → GuardsFit G.Guard.LARGEST result.links.now }
{
    Tables {
        actors: actors_of(slip, actors),
        links: links_of(slip, links),
        sound: check_open::<G>(slip, actors, links, row),
    }
}

// Sets the guards up and answers whose turn it is on each processor, unless the tables are unsound.
fn prepare<G: Guard>(tables: &Tables<'_, '_>, row: &mut [G]) -> [usize; PROCESSORS]
    requires { tables.now.sound ≡ Ok tt → GuardsFit G.Guard.LARGEST tables.now.links.now }
    ensures turns { result ≡ turns_if (fault_of tables.now.sound) tables.now.actors.now }
    ensures levels { map G.Guard.level row.new ≡ row_if (fault_of tables.now.sound) tables.now.links.now (map G.Guard.level row.old) }
    ensures stand { Stand (guarded_if (fault_of tables.now.sound)) tables.now.links.now row.old row.new }
{
    match tables.sound {
        Ok(()) => {
            set_up_all(tables.links, row);
            first_turns(tables.actors)
        }
        Err(_) => [0; PROCESSORS],
    }
}

/// Opens a run on the plan of this slip, over the two tables, which may be any tables, and a row of guards. Each kept and
/// back link gets a fresh guard at its number, with its delay as count and its size; other guards stand. It always gives a
/// run. With refusal 15 or 16 the run is unsound: the row stands, and every call but `close` is refused with that refusal.
pub fn open<'actors, 'links, 'row, G: Guard>(
    slip: Slip,
    actors: &'actors [Actor],
    links: &'links [Link],
    row: &'row mut [G],
) -> Run<'actors, 'links, 'row, G>
    ensures slip { result.slip ≡ slip }
    ensures named { result.row.ghost_name ≡ row.entry.ghost_name }
    ensures site { site_of_run result ≡ site_of (totals_of slip) actors.now links.now }
    ensures standing { standing_of_run G.Guard.level result ≡ opened G.Guard.LARGEST (totals_of slip) actors.now links.now (map G.Guard.level row.old) }
    ensures stand { Stand (guarded_if (fault_of result.tables.sound)) result.tables.links.now row.old result.row.now }
    ensures opens { OpensPlans G.Guard.LARGEST (totals_of slip) actors.now links.now (length row.old) (fault_of result.tables.sound) }
{
    let tables = cut_tables::<G>(&slip, actors, links, row.len());
    let turns = prepare(&tables, row);
    let rested = Entry {
        state: State::Resting,
        starts: 0,
        finishes: 0,
    };
    Run {
        slip,
        tables,
        row,
        entries: [rested; ENTRIES],
        turns,
    }
}
