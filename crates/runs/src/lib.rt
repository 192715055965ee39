// Runs: a plan carried out, with a guard at each kept and back link.
#![tactic(auto)]

mod checks;
mod entries;
mod rehearsals;
mod rows;
mod run;
mod turns;

pub use rehearsals::rehearse;
pub use run::{Run, open};
