// Books of lines and their tables: the states, the calls on them, and the refusals. Written once for every kind.
#![tactic(auto)]

mod change;
mod laid;
mod layers;
mod measured;
mod open;
mod refusal;
mod shape;

pub use laid::LaidTable;
pub use measured::MeasuredBook;
pub use open::OpenBook;
pub use refusal::{Fault, Refusal, Refused};
