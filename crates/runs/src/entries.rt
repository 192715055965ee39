// One actor's entry, which starts and finishes change.
ghost use Rattle.std.specs.Prelude.{◌≡◌};
ghost use Rattle.running.specs.Entries.{entry_check, entry_if};

use crate::rows::Event;
use records::{Fault, Layer, Refusal};
use running::{Act, Entry, State};

/// How often an actor can start.
const MOST_STARTS: u32 = 1_000_000_000;

/// Lets the actor start or finish, unless that is refused; `turn` tells whether it has its processor's turn, and `blocked`
/// is the lowest link whose guard stops it.
pub(crate) fn advance(
    entry: &mut Entry,
    event: Event,
    turn: bool,
    blocked: Option<usize>,
) -> Result<(), Fault>
    ensures answer { result ≡ entry_check event.act event.actor turn blocked entry.old }
    ensures entry { entry.new ≡ entry_if (entry_check event.act event.actor turn blocked entry.old) event.act entry.old }
{
    match (entry.state, event.act) {
        (_, Act::Start) if entry.starts >= MOST_STARTS => Err(Fault::new(
            Refusal::TooManyStarts,
            Layer::Run,
            event.actor,
        )),
        (State::Running, Act::Start) => Err(Fault::new(
            Refusal::NotItsTurn,
            Layer::Run,
            event.actor,
        )),
        (State::Resting, Act::Start) => {
            if !turn {
                return Err(Fault::new(Refusal::NotItsTurn, Layer::Run, event.actor));
            }
            if let Some(link) = blocked {
                return Err(Fault::new(Refusal::EmptyLink, Layer::Run, link));
            }
            entry.state = State::Running;
            entry.starts += 1;
            Ok(())
        }
        (State::Resting, Act::Finish) => Err(Fault::new(Refusal::Resting, Layer::Run, event.actor)),
        (State::Running, Act::Finish) => {
            if let Some(link) = blocked {
                return Err(Fault::new(Refusal::Full, Layer::Run, link));
            }
            entry.state = State::Resting;
            entry.finishes = entry.starts;
            Ok(())
        }
    }
}
