// The bridge kind: a header is the first fourteen bytes of a frame, and a rule is fourteen value bytes under a mask.
#![tactic(auto)]

mod alone;
mod fault;
mod frame;
mod kind;
mod octets;
mod rule;

pub use fault::Fault;
pub use frame::Header;
pub use kind::Bridge;
pub use octets::Octets;
pub use rule::{Row, Rule};
