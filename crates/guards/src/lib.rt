// Guards: how many values wait on a link, and how many there can be.
#![tactic(auto)]

mod counter;
mod guard;
mod pointers;
mod refusal;
#[cfg(test)]
mod tests;

pub use counter::Counter;
pub use guard::Guard;
pub use pointers::Pointers;
