// The chosen bits of a table: at most twelve rising numbers, kept as single numbers.
#![tactic(auto)]

mod chosen;
mod set;

pub use chosen::{Chosen, worth};
pub use set::{Bits, Iter};
