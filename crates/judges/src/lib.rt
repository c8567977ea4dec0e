// Judges, which tell the cost of a list of block sizes, and two of them.
#![tactic(auto)]

mod judge;
mod largest;
mod squares;

pub use judge::Judge;
pub use largest::Largest;
pub use squares::Squares;
