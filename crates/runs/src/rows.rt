// The row of guards, link by link.
ghost use Rattle.std.specs.Prelude.{◌≡◌, ℕ, ◌<◌, true, false, map, length, slice_index_or};
ghost use Rattle.records.specs.Tables.{no_link};
ghost use Rattle.guards.specs.Levels.{unfit};
ghost use Rattle.running.specs.Rows.{each, first_link, guarded, set_up, concerns, stops, blocks, moved, passes};
ghost use Rattle.runs.specs.Openings.{GuardsFit};
ghost use Rattle.runs.specs.Alone.{Stand};
ghost use Rattle.runs.specs.Changes.{Changed};

use guards::Guard;
use records::{Link, Mark};
use running::Act;

/// Only kept and back links have a guard.
pub(crate) fn is_guarded(link: Link) -> bool
    ensures { result ≡ guarded link }
{
    link.has_mark(Mark::Kept) || link.has_mark(Mark::Back)
}

/// A start or a finish of one actor.
#[derive(Clone, Copy)]
pub(crate) struct Event {
    pub act: Act,
    pub actor: usize,
}

// What an event does to one guard. The two acts are matched in place: a trait would need a type for each, and say no more.
impl Event {
    fn concerns(self, link: Link) -> bool
        ensures { result ≡ concerns self.act self.actor link }
    {
        let end = match self.act {
            Act::Start => link.receiver,
            Act::Finish => link.sender,
        };
        is_guarded(link) && end as usize == self.actor
    }

    // Whether the guard is empty at a start, or full at a finish; a full one refuses to be sent one value more.
    fn is_stopped<G: Guard>(self, guard: G) -> bool
        ensures { result ≡ stops self.act (G.Guard.level guard) }
    {
        match self.act {
            Act::Start => !guard.waiting(),
            Act::Finish => {
                let mut trial = guard;
                trial.send().is_err()
            }
        }
    }

    fn is_blocked<G: Guard>(self, link: Link, guard: G) -> bool
        ensures { result ≡ blocks self.act self.actor link (G.Guard.level guard) }
    {
        self.concerns(link) && self.is_stopped(guard)
    }

    // The guard after a start has taken a value from it, or a finish has sent one.
    fn moved<G: Guard>(self, guard: G) -> G
        ensures { G.Guard.level result ≡ moved self.act (G.Guard.level guard) }
    {
        let mut next = guard;
        let _ = match self.act {
            Act::Start => next.take(),
            Act::Finish => next.send(),
        };
        next
    }

    // The guard of this link after the event.
    fn passed<G: Guard>(self, link: Link, guard: G) -> G
        ensures level { G.Guard.level result ≡ passes self.act self.actor link (G.Guard.level guard) }
        ensures stands { concerns self.act self.actor link ≡ false → result ≡ guard }
    {
        if self.concerns(link) {
            self.moved(guard)
        } else {
            guard
        }
    }
}

// The guard of this link at opening.
fn fresh_guard<G: Guard>(link: Link, guard: G) -> G
    requires { guarded link ≡ true → unfit G.Guard.LARGEST link.delay link.size ≡ false }
    ensures level { G.Guard.level result ≡ set_up link (G.Guard.level guard) }
    ensures stands { guarded link ≡ false → result ≡ guard }
{
    if is_guarded(link) {
        G::fresh(link.delay, link.size).unwrap_or(guard)
    } else {
        guard
    }
}

// Changes each guard by what its link says; guards past the links stand, and are not gone through: a row may be long. A zip of links
// and `iter_mut` was tried: the proof then knows nothing of the row afterwards, so each link is looked up by its guard's number.
fn change_each<G: Copy, F: Fn(Link, G) -> G>(links: &[Link], row: &mut [G], change: F)
    requires { (k : ℕ) (guard : G) → k < length links.now → F.pre change (slice_index_or links.now k no_link) guard }
    ensures { Changed (F.post change) links.now row.old row.new }
{
    for (i, guard) in row.iter_mut().enumerate() {
        let Some(link) = links.get(i) else {
            break;
        };
        *guard = change(*link, *guard);
    }
}

// What an event does to the row.
impl Event {
    /// The lowest link whose guard stops the event.
    pub(crate) fn first_blocked<G: Guard>(self, links: &[Link], row: &[G]) -> Option<usize>
        ensures { result ≡ first_link (blocks self.act self.actor) 0 links.now (map G.Guard.level row.now) }
    {
        links
            .iter()
            .zip(row)
            .position(|(link, guard)| self.is_blocked(*link, *guard))
    }

    /// Takes a value from, or sends one to, every guard that the event concerns.
    pub(crate) fn pass_all<G: Guard>(self, links: &[Link], row: &mut [G])
        ensures levels { map G.Guard.level row.new ≡ each (passes self.act self.actor) links.now (map G.Guard.level row.old) }
        ensures stand { Stand (concerns self.act self.actor) links.now row.old row.new }
    {
        change_each(links, row, |link, guard| self.passed(link, guard));
    }
}

/// Gives each kept and back link a fresh guard with its delay as count and its size.
pub(crate) fn set_up_all<G: Guard>(links: &[Link], row: &mut [G])
    requires { GuardsFit G.Guard.LARGEST links.now }
    ensures levels { map G.Guard.level row.new ≡ each set_up links.now (map G.Guard.level row.old) }
    ensures stand { Stand guarded links.now row.old row.new }
{
    change_each(links, row, fresh_guard);
}
