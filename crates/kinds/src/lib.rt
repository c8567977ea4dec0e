// What every kind of header has in common: its meaning and law, the cells that a rule admits, the lines that hold its rules, and the code of a fault.
#![tactic(auto)]

mod alone;
mod cells;
mod code;
mod digits;
mod kind;
mod line;
mod masked;
mod search;
mod spans;

pub use alone::{Alone, admits_each};
pub use cells::Cells;
pub use code::FaultCode;
pub use digits::digit;
pub use kind::Kind;
pub use line::Line;
pub use masked::{Masked, make_masked};
pub use search::{filled, first_match, rule_of};
pub use spans::Span;
