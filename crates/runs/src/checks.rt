// What makes a run unsound at opening.
ghost use Rattle.std.specs.Prelude.{◌≡◌, ◌+◌, ◌||◌, length, take, nat_le};
ghost use Rattle.records.specs.declared.fault.Layer.TheVariants.{Run};
ghost use Rattle.planning.specs.Checks.{refuse_first};
ghost use Rattle.planner.specs.Slips.{totals_of};
ghost use Rattle.running.specs.Runs.{far_processor, short, unfit_link, open_check};

use crate::rows::is_guarded;
use guards::Guard;
use planner::Slip;
use records::{Actor, Fault, Layer, Link, Mark, Refusal};

/// How many actors a run has entries for.
pub(crate) const ENTRIES: usize = 64;

const LAST_PROCESSOR: u32 = 15;

// Whether two counts together are at most the number of places.
fn fits(given: usize, back: usize, places: usize) -> bool
    ensures { result ≡ nat_le (given + back) places }
{
    given.checked_add(back).is_some_and(|total| total <= places)
}

fn is_short(slip: &Slip, actors: usize, links: usize, row: usize) -> bool
    ensures { result ≡ short (totals_of slip.now) actors links row }
{
    slip.actors() > ENTRIES
        || actors < slip.actors()
        || !fits(slip.given(), slip.back(), links)
        || !fits(slip.given(), slip.back(), row)
}

fn has_far_processor(actors: &[Actor]) -> bool
    ensures { result ≡ far_processor actors.now }
{
    actors.iter().any(|actor| actor.processor > LAST_PROCESSOR)
}

fn is_unfit(link: Link, n: usize, largest: u32) -> bool
    ensures { result ≡ unfit_link largest n link }
{
    link.sender as usize >= n
        || link.receiver as usize >= n
        // A mark that is none of the four.
        || link.mark > Mark::Back.number()
        || !link.has_mark(Mark::Local) && (link.size == 0 || link.size < link.delay)
        || is_guarded(link) && link.size > largest
}

fn check_links(links: &[Link], n: usize, largest: u32) -> Result<(), Fault>
    ensures { result ≡ refuse_first (unfit_link largest n) Refusal.UnfitLink Run 0 links.now }
{
    Fault::at_found(
        links.iter().position(|link| is_unfit(*link, n, largest)),
        Refusal::UnfitLink,
        Layer::Run,
    )
}

/// The actors that the slip speaks of.
pub(crate) fn actors_of<'t>(slip: &Slip, actors: &'t [Actor]) -> &'t [Actor]
    ensures { result.now ≡ take slip.now.actors actors.now }
{
    &actors[..slip.actors().min(actors.len())]
}

/// The given and back links that the slip speaks of.
pub(crate) fn links_of<'t>(slip: &Slip, links: &'t [Link]) -> &'t [Link]
    ensures { result.now ≡ take (slip.now.given + slip.now.back) links.now }
{
    let total = slip.given().saturating_add(slip.back());
    &links[..total.min(links.len())]
}

// Whether the tables or the row are too short, or a processor is too high.
fn is_unusable(slip: &Slip, actors: &[Actor], links: usize, row: usize) -> bool
    ensures { result ≡ short (totals_of slip.now) (length actors.now) links row || far_processor (take slip.now.actors actors.now) }
{
    is_short(slip, actors.len(), links, row) || has_far_processor(actors_of(slip, actors))
}

/// Refuses tables and rows that no run can stand on.
#[tactic(auto, unfolding(running::specs::Runs::open_check))]
pub(crate) fn check_open<G: Guard>(
    slip: &Slip,
    actors: &[Actor],
    links: &[Link],
    row: usize,
) -> Result<(), Fault>
    ensures { result ≡ open_check G.Guard.LARGEST (totals_of slip.now) actors.now links.now row }
{
    if is_unusable(slip, actors, links.len(), row) {
        return Err(Fault::new(Refusal::UnfitTables, Layer::Run, 0));
    }
    check_links(links_of(slip, links), slip.actors(), G::LARGEST)
}
