// The records that every stage shares: what a drawing is made of, and how one is refused.
#![tactic(auto)]

mod fault;
mod refusal;
mod tables;

pub use fault::{Fault, Layer};
pub use refusal::Refusal;
pub use tables::{Actor, Edge, Link, Mark};
