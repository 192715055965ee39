// What is refused before anything is planned.
ghost use Rattle.std.specs.Prelude.{◌≡◌, ◌+◌, ◌*◌, ◌<◌, ◌≤◌, length, OnOk};
ghost use Rattle.records.specs.declared.fault.Layer.TheVariants.{Table};
ghost use Rattle.records.specs.Faults.{fault};
ghost use Rattle.planning.specs.Checks.{bad_actor, bad_link, refuse_first, check_counts, check_tables, check_cycles};
ghost use Rattle.planner.specs.Within.{Sound};

use crate::pairs::Pairs;
use paths::Reach;
use records::{Actor, Fault, Layer, Link, Refusal};

const ACTORS: usize = 64;

const LINKS: usize = 256;
/// How many back links the link table has room for.
pub(crate) const BACKS: usize = 15;

const PROCESSORS: u32 = 16;

const LONGEST_ESTIMATE: u32 = 1_000_000;

const LONGEST_DELAY: u32 = 1_000;

// The counts, the lengths of what is lent, and the lead.
pub(crate) fn check_counts(
    n: usize,
    m: usize,
    links: usize,
    lead: u32,
    delays: usize,
    reach: usize,
) -> Result<(), Fault>
    ensures { result ≡ check_counts n m links lead delays reach }
{
    if n == 0 || n > ACTORS {
        return Err(Fault::new(Refusal::ActorCount, Layer::Table, 0));
    }
    if m > LINKS || links < m + BACKS {
        return Err(Fault::new(Refusal::LinkCount, Layer::Table, 0));
    }
    if lead == 0 || lead > LONGEST_DELAY {
        return Err(Fault::new(Refusal::BadLead, Layer::Table, 0));
    }
    if delays < n * n || reach < n * n {
        return Err(Fault::new(Refusal::ShortWorkspace, Layer::Table, 0));
    }
    Ok(())
}

fn is_bad_actor(actor: &Actor) -> bool
    ensures { result ≡ bad_actor actor.now }
{
    actor.processor >= PROCESSORS || actor.estimate == 0 || actor.estimate > LONGEST_ESTIMATE
}

pub(crate) fn check_actors(actors: &[Actor]) -> Result<(), Fault>
    ensures { result ≡ refuse_first bad_actor Refusal.BadActor Table 0 actors.now }
{
    Fault::at_found(
        actors.iter().position(is_bad_actor),
        Refusal::BadActor,
        Layer::Table,
    )
}

fn is_bad_link(link: &Link, n: usize) -> bool
    ensures { result ≡ bad_link n link.now }
{
    link.sender as usize >= n || link.receiver as usize >= n || link.delay > LONGEST_DELAY
}

pub(crate) fn check_links(links: &[Link], n: usize) -> Result<(), Fault>
    ensures { result ≡ refuse_first (bad_link n) Refusal.BadLink Table 0 links.now }
{
    Fault::at_found(
        links.iter().position(|link| is_bad_link(link, n)),
        Refusal::BadLink,
        Layer::Table,
    )
}

// All that is refused about counts, tables and numbers.
pub(crate) fn check_tables(
    actors: &[Actor],
    links: &[Link],
    given: usize,
    lead: u32,
    delays: usize,
    reach: usize,
) -> Result<(), Fault>
    ensures answer { result ≡ check_tables actors.now links.now given lead delays reach }
    ensures sound { OnOk result (Sound (length actors.now) links.now given delays reach) }
{
    check_counts(actors.len(), given, links.len(), lead, delays, reach)?;
    check_actors(actors)?;
    check_links(&links[..given], actors.len())
}

// The lowest actor on a delay-free cycle, by the table of who is reached by delay-free edges.
pub(crate) fn check_cycles(free: &Pairs<Reach>) -> Result<(), Fault>
    ensures { result ≡ check_cycles free.now.n free.now.cells.now }
{
    Fault::at_found(
        (0..free.n).find(|u| free.at(*u, *u).yes),
        Refusal::Deadlock,
        Layer::Plan,
    )
}
