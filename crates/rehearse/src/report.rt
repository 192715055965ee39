// What a rehearsal is told as.
use crate::holding::{Holding, holding_of};
use records::{Link, Mark};
use running::Step;
use std::alloc::Global;
use std::fmt;
use std::fmt::Write;
use wording::tell_steps;

fn tell_link(told: &mut String, number: usize, link: Link, holding: Holding) -> fmt::Result {
    let Holding { held, most } = holding;
    write!(told, "link {number} holds {held} most {most} ")?;
    if link.has_mark(Mark::Local) {
        writeln!(told, "home")?;
        return Ok(());
    }
    let cells = link.size;
    writeln!(told, "cells {cells}")?;
    Ok(())
}

/// A line for each step, and then one for each link.
pub fn report(heap: Global, steps: &[Step], links: &[Link]) -> Result<String, fmt::Error> {
    let mut told = String::new(heap);
    tell_steps(&mut told, steps)?;
    for (number, link) in links.iter().enumerate() {
        let holding = holding_of(*link, steps);
        tell_link(&mut told, number, *link, holding)?;
    }
    Ok(told)
}
