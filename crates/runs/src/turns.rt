// Whose turn it is on a processor.
ghost use Rattle.std.specs.Prelude.{◌≡◌, ◌<◌, length, IfSome};
ghost use Rattle.running.specs.Runs.{first_on, first_turn, first_turns, turn_after};

use records::Actor;
use std::array;

/// How many processors there can be.
pub(crate) const PROCESSORS: usize = 16;

// The lowest of these actors on the processor.
fn first_on(actors: &[Actor], processor: u32) -> Option<usize>
    ensures first { result ≡ first_on processor 0 actors.now }
    ensures within { IfSome result (λ a. a < length actors.now) }
{
    actors.iter().position(|actor| actor.processor == processor)
}

fn first_turn(actors: &[Actor], processor: u32) -> usize
    ensures { result ≡ first_turn actors.now processor }
{
    first_on(actors, processor).unwrap_or(0)
}

/// Whose turn it is after this actor has finished: the next on its processor, or again the first.
#[tactic(auto, using(crate::proofs::Searches::turn_of_next, crate::proofs::Searches::turn_of_first))]
pub(crate) fn turn_after(actors: &[Actor], actor: usize) -> usize
    requires { actor < length actors.now }
    ensures { result ≡ turn_after actors.now actor }
{
    let processor = actors[actor].processor;
    let next = actor + 1;
    match first_on(&actors[next..], processor) {
        Some(further) => next + further,
        None => first_turn(actors, processor),
    }
}

/// Whose turn it is on each processor at first.
pub(crate) fn first_turns(actors: &[Actor]) -> [usize; PROCESSORS]
    ensures { result ≡ first_turns actors.now }
{
    array::from_fn(|processor| first_turn(actors, processor as u32))
}
