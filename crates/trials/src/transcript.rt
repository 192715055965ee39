// What a run answered, as the stored runs tell it.
use crate::levels::{Level, level_of};
use guards::Guard;
use running::Step;
use std::alloc::Global;
use std::fmt;
use std::fmt::Write;
use wording::tell_steps;

/// What every guard holds before a run is opened.
pub const STALE: Level = Level { count: 3, size: 7 };

fn tell_guards<G: Guard>(told: &mut String, row: &[G]) -> fmt::Result {
    for (number, guard) in row.iter().enumerate() {
        let level = level_of(*guard);
        if level != STALE {
            let Level { count, size } = level;
            writeln!(told, "guard {number} {count} {size}")?;
        }
    }
    Ok(())
}

/// A line for each call, and then one for each guard that does not hold what it held before.
pub fn transcript<G: Guard>(heap: Global, steps: &[Step], row: &[G]) -> Result<String, fmt::Error> {
    let mut told = String::new(heap);
    tell_steps(&mut told, steps)?;
    tell_guards(&mut told, row)?;
    Ok(told)
}
