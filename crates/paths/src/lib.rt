// Path algebras, and the closure of a table of edges over any of them.
#![tactic(auto)]

mod algebra;
mod closure;
mod delay;
mod reach;

pub use algebra::Algebra;
pub use closure::close;
pub use delay::Delay;
pub use reach::Reach;
