// The listing of a drawing: the bytes of its plan, or of its refusal.
#![tactic(auto)]

mod line;
mod listings;
mod rows;
mod words;
mod write;

pub use listings::list;
