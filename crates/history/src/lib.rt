// Histories of a table: it is made over lent memory and carries out a list of calls, and what holds after every such history.
#![tactic(auto)]

mod carrying;
mod running;
mod turn;

pub use running::{make, run};
pub use turn::{Answer, Asked, Call, Turn};
