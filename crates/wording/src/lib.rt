// The lines in which the steps of a run are told.
#![tactic(auto)]

mod steps;

pub use steps::tell_steps;
