// What a guard holds, found out by taking and sending.
use guards::Guard;
use records::Fault;

/// How many values wait, out of how many there can be.
#[derive(Clone, Copy, PartialEq, Eq)]
pub struct Level {
    pub count: u32,
    pub size: u32,
}

// More than any guard can hold.
const TURNS: u32 = 65536;

// How often a step goes well on a copy of the guard.
fn times<G: Guard, F: FnMut(&mut G) -> Result<(), Fault>>(guard: G, mut step: F) -> u32
    requires { F.IsAlwaysCallable step }
{
    let mut spare = guard;
    // Tried as a `find`: that the step may be called again after it changed the guard was not proved.
    for turn in 0..TURNS {
        if step(&mut spare).is_err() {
            return turn;
        }
    }
    TURNS
}

/// The level of a guard, which is left as it is.
pub fn level_of<G: Guard>(guard: G) -> Level {
    let count = times(guard, |g| g.take());
    Level {
        count,
        size: count.saturating_add(times(guard, |g| g.send())),
    }
}
