// A drawing planned, and its plan run.
ghost use Rattle.std.specs.Prelude.{◌≡◌, ◌+◌, ◌≤◌, map, length, take, IfOk, None, Ok};
ghost use Rattle.records.specs.Faults.{told};
ghost use Rattle.planning.specs.Planning.{Totals, drawing, planned};
ghost use Rattle.planner.specs.Slips.{totals_of, slip_answer, slip_values};
ghost use Rattle.running.specs.Claims.{Claim, Law};
ghost use Rattle.running.specs.Rehearsals.{plan_opened};
ghost use Rattle.running.specs.Runs.{opened};
ghost use Rattle.runs.specs.Alone.{Stand, guarded_if};
ghost use Rattle.runs.specs.Rehearsing.{Rehearses, rehearsed_on};

use crate::run::open;
use guards::Guard;
use paths::{Delay, Reach};
use planner::{Slip, plan};
use records::{Actor, Fault, Link};
use running::Step;

// Opens a run, makes the calls, and closes it.
#[tactic(auto, using(crate::proofs::Calling::stand_on))]
fn run_plan<G: Guard>(
    slip: Slip,
    actors: &[Actor],
    links: &[Link],
    row: &mut [G],
    steps: &mut [Step],
) -> Slip
    ensures slip { result ≡ slip }
    ensures steps { steps.new ≡ (rehearsed_on G.Guard.LARGEST (totals_of slip) actors.now links.now (map G.Guard.level row.old) steps.old).steps }
    ensures levels { map G.Guard.level row.new ≡ (rehearsed_on G.Guard.LARGEST (totals_of slip) actors.now links.now (map G.Guard.level row.old) steps.old).row }
    ensures stand { Stand (guarded_if (opened G.Guard.LARGEST (totals_of slip) actors.now links.now (map G.Guard.level row.old)).fault) (take (slip.given + slip.back) links.now) row.old row.new }
{
    let mut run = open(slip, actors, links, row);
    run.carry_out(steps);
    run.close()
}

// What planning is lent comes one by one, as to `plan`.
/// Plans a drawing, opens a run on its plan with these guards, makes the calls one after the other, writes each answer into
/// its call's record, and closes the run. Answers the slip, or planning's refusal, which leaves guards and calls as they are;
/// tables and workspaces are left as planning leaves them. If the row is too short, or this kind of guard cannot keep a size, the
/// run is unsound, and every call has its refusal as answer. What holds of every run is `Claim`, and of this one `Law`.
#[tactic(auto, using(std::proofs::lemmas::Result::err_from_is_err_and, crate::proofs::Rehearsing::made_refused, crate::proofs::Rehearsing::refused_plan, crate::proofs::Rehearsing::accepted_plan, crate::proofs::Rehearsing::when_refused, crate::proofs::Rehearsing::when_accepted, crate::proofs::Rehearsing::own_law, crate::proofs::Rehearsing::stand_accepted))]
pub fn rehearse<G: Guard>(
    actors: &[Actor],
    links: &mut [Link],
    given: usize,
    lead: u32,
    delays: &mut [Delay],
    reach: &mut [Reach],
    row: &mut [G],
    steps: &mut [Step],
) -> Result<Slip, Fault>
    ensures answer { result ≡ slip_answer (planned (drawing actors.now links.old given lead delays.old reach.old)).answer }
    ensures view { told slip_values result ≡ told slip_values (slip_answer (planned (drawing actors.now links.old given lead delays.old reach.old)).answer) }
    ensures links { links.new ≡ (planned (drawing actors.now links.old given lead delays.old reach.old)).links }
    ensures delays { delays.new ≡ (planned (drawing actors.now links.old given lead delays.old reach.old)).delays }
    ensures reach { reach.new ≡ (planned (drawing actors.now links.old given lead delays.old reach.old)).reach }
    ensures room { IfOk result (λ s. s.given + s.back ≤ length links.old) }
    ensures rehearsal { Rehearses G.Guard.level G.Guard.LARGEST (drawing actors.now links.old given lead delays.old reach.old) links.new row.old row.new steps.old steps.new }
    ensures claim { (t : Totals) → (planned (drawing actors.now links.old given lead delays.old reach.old)).answer ≡ Ok t → Claim (drawing actors.now links.old given lead delays.old reach.old) t }
    ensures law { (t : Totals) → (planned (drawing actors.now links.old given lead delays.old reach.old)).answer ≡ Ok t → (plan_opened G.Guard.LARGEST (drawing actors.now links.old given lead delays.old reach.old) t (map G.Guard.level row.old)).fault ≡ None → Law (drawing actors.now links.old given lead delays.old reach.old) steps.new (map G.Guard.level row.new) }
{
    let slip = plan(actors, links, given, lead, delays, reach)?;
    Ok(run_plan(slip, actors, links, row, steps))
}
