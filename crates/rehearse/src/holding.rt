// What a link holds in the course of a run.
ghost use Rattle.std.specs.Prelude.{◌≡◌};
ghost use Rattle.rehearse.specs.Holding.{is_accepted, held_after, Most};

use records::Link;
use running::{Answer, Call, Step};

/// What a link holds after some steps, and the most that it ever held until then.
#[derive(Clone, Copy)]
pub struct Holding {
    pub held: u128,
    pub most: u128,
}

// Whether the step is this call, accepted.
fn is_accepted(step: &Step, call: Call) -> bool
    ensures { result ≡ is_accepted call step.now }
{
    *step
        == Step {
            call,
            answer: Answer::Done,
        }
}

/// What the link holds after the steps. It holds its delay at first, one value more from each start of its sender on, and one
/// less from each finish of its receiver on.
pub fn holding_of(link: Link, steps: &[Step]) -> Holding
    ensures held { result.held ≡ held_after link steps.now }
    ensures most { Most link steps.now result.most }
{
    let mut made = u128::from(link.delay);
    let mut used = 0u128;
    let mut most = made;
    for step in steps {
        if is_accepted(step, Call::Start(link.sender as usize)) {
            made += 1;
        }
        if is_accepted(step, Call::Finish(link.receiver as usize)) {
            used += 1;
        }
        most = most.max(made.saturating_sub(used));
    }
    Holding {
        held: made.saturating_sub(used),
        most,
    }
}
