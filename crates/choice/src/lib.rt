// The choice of bits for a table: Fast-Growth, then Intelli-Evolution. Written once for every kind and judge.
#![tactic(auto)]

mod choice;
mod choosing;
mod evolve;
mod grow;
mod limits;
mod refusal;
mod search;

pub use choice::{Choice, Outcome};
pub use choosing::choose;
pub use limits::Limits;
pub use refusal::Refusal;
