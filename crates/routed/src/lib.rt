// The routed kind: IPv4 packets by addresses, ports and protocol.
#![tactic(auto)]

mod alone;
mod fault;
mod kind;
mod packet;
mod ports;
mod prefix;
mod protocol;
mod rule;

pub use fault::{Defect, Fault, RuleField};
pub use kind::Routed;
pub use packet::{Header, Ports};
pub use ports::PortRange;
pub use prefix::Prefix;
pub use protocol::ProtocolMatch;
pub use rule::{Row, Rule};
