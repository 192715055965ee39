// Planning: from the tables of a drawing to its plan.
#![tactic(auto)]

mod back_links;
mod backs;
mod checks;
mod costs;
mod edges;
mod graph;
mod ground;
mod groups;
mod marks;
mod pairs;
mod plans;
mod sizes;
mod surveys;
mod tables;

pub use plans::{Slip, plan};
