// What reading a packet or a row can refuse.
ghost use Rattle.std.specs.Prelude.{◌≡◌};
ghost use Rattle.routed.specs.Faults.{code_of};

use kinds::FaultCode;

// A field of a rule, by its number in bit order.
#[derive(Clone, Copy, Debug, PartialEq, Eq)]
pub enum RuleField {
    Source = 1,
    Destination = 2,
    SourcePorts = 3,
    DestinationPorts = 4,
    Protocol = 5,
}

// What is wrong with the numbers of one field, by the number of the refusal.
#[derive(Clone, Copy, Debug, PartialEq, Eq)]
pub enum Defect {
    // A prefix length above 32.
    PrefixLength = 5,
    // A one past the prefix, or a value bit outside the mask.
    StrayBit = 6,
    // A port range whose low end lies above its high end.
    RangeOrder = 7,
    // A protocol mask that is neither 0 nor 255.
    ProtocolMask = 8,
}

#[derive(Clone, Copy, Debug, PartialEq, Eq)]
pub enum Fault {
    // The packet has under 20 bytes.
    Short,
    // The version is not 4.
    Version,
    // The header has under five words, or ends past the last byte.
    HeaderLength,
    // A TCP or UDP packet that is no later fragment has under four bytes after its header.
    NoPorts,
    // A row whose numbers are no rule's.
    NoRule(RuleField, Defect),
}

// Number, layer and place.
impl From<Fault> for FaultCode {
    ghost from_gives = { λ fault code. code ≡ code_of fault };

    fn from(fault: Fault) -> FaultCode {
        // Numbers here and no discriminants, which an enum has only where no case has parts.
        let (number, place) = match fault {
            Fault::Short => (1, 0),
            Fault::Version => (2, 0),
            Fault::HeaderLength => (3, 0),
            Fault::NoPorts => (4, 0),
            // `as`, which tells the discriminants.
            Fault::NoRule(field, defect) => (defect as u16, field as usize),
        };
        FaultCode {
            number,
            layer: 1,
            place,
        }
    }
}
