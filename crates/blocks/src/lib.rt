// Cells and blocks of a list of lines, counted into a lent tally. Written once for every kind.
#![tactic(auto)]

mod admitted;
mod cell;
mod change;
mod clear;
mod count;
mod plan;
mod refusal;
mod tally;

pub use admitted::Admitted;
pub use cell::cell_of;
pub use change::Change;
pub use clear::clear_from;
pub use plan::Plan;
pub use refusal::{Refusal, ready};
pub use tally::Tally;
