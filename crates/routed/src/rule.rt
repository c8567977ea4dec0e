// A rule by its parts, each of which promises in its type what matching and admission rely on, and the plain numbers that may hold one.
ghost use Rattle.std.specs.Prelude.{◌≡◌, true, ◌&&◌, ◌||◌, is_some};
ghost use Rattle.routed.specs.Packets.{port_bits};
ghost use Rattle.routed.specs.Ranges.{in_range};
ghost use Rattle.routed.specs.Routed.{takes_every_port, in_field, rule_in};

use super::fault::{Defect, Fault, RuleField};
use super::packet::Ports;
use super::ports::PortRange;
use super::prefix::Prefix;
use super::protocol::ProtocolMatch;

// A rule: it matches a header that lies in every part. A portless header lies in a port range only where both ranges are whole.
#[derive(Clone, Copy, Debug, PartialEq, Eq)]
pub struct Rule {
    pub source: Prefix,
    pub destination: Prefix,
    pub source_ports: PortRange,
    pub destination_ports: PortRange,
    pub protocol: ProtocolMatch,
}

impl Rule {
    // Whether a header's ports lie in the two ranges, or, where it is portless, both ranges are whole.
    pub(crate) fn takes_ports(&self, ports: Option<Ports>) -> bool
        ensures answer { result ≡ (in_range self.now.source_ports (port_bits ports).source && (in_range self.now.destination_ports (port_bits ports).destination && (is_some ports || takes_every_port self.now))) }
        ensures all { takes_every_port self.now ≡ true → result ≡ true }
    {
        match ports {
            Some(ports) => {
                self.source_ports.contains(ports.source)
                    && self.destination_ports.contains(ports.destination)
            }
            None => self.source_ports.is_whole() && self.destination_ports.is_whole(),
        }
    }
}

// The plain numbers of a rule, one by one by a rule of the project; not all of them hold one.
#[derive(Clone, Copy, Debug, PartialEq, Eq)]
pub struct Row {
    pub source: u32,
    pub source_length: u8,
    pub destination: u32,
    pub destination_length: u8,
    pub source_low: u16,
    pub source_high: u16,
    pub destination_low: u16,
    pub destination_high: u16,
    pub protocol: u8,
    pub mask: u8,
}

impl Row {
    // The numbers of the rule that matches every header.
    pub const ALL: Row = Row {
        source: 0,
        source_length: 0,
        destination: 0,
        destination_length: 0,
        source_low: 0,
        source_high: 65535,
        destination_low: 0,
        destination_high: 65535,
        protocol: 0,
        mask: 0,
    };
}

// The rule that a row holds, or the first field in bit order that is wrong and why.
impl TryFrom<Row> for Rule {
    type Error = Fault;

    ghost try_from_gives = { λ row result. result ≡ rule_in row };

    fn try_from(row: Row) -> Result<Rule, Fault> {
        Ok(Rule {
            source: in_field(
                RuleField::Source,
                Prefix::new(row.source, row.source_length),
            )?,
            destination: in_field(
                RuleField::Destination,
                Prefix::new(row.destination, row.destination_length),
            )?,
            source_ports: in_field(
                RuleField::SourcePorts,
                PortRange::new(row.source_low, row.source_high),
            )?,
            destination_ports: in_field(
                RuleField::DestinationPorts,
                PortRange::new(row.destination_low, row.destination_high),
            )?,
            protocol: in_field(
                RuleField::Protocol,
                ProtocolMatch::new(row.protocol, row.mask),
            )?,
        })
    }
}

// A part of a rule, or the fault of the field that it belongs to.
fn in_field<P>(field: RuleField, part: Result<P, Defect>) -> Result<P, Fault>
    ensures { result ≡ in_field field part }
{
    part.map_err(|defect| Fault::NoRule(field, defect))
}
