// Protocols under a mask.
ghost use Rattle.std.specs.Prelude.{◌≡◌, ◌<◌, true, ◌||◌, ◌==◌, bit_and};

use super::fault::Defect;
use kinds::digit;

// One protocol, or any where the mask is 0; the value has no bit outside the mask.
#[derive(Clone, Copy, Debug, PartialEq, Eq)]
pub struct ProtocolMatch {
    pub(crate) value: u8,
    pub(crate) mask: u8,
    ghost whole: { (mask == 0 || mask == 255) ≡ true },
    ghost inside: { bit_and value mask ≡ value },
}

impl ProtocolMatch {
    ghost use Rattle.routed.specs.Protocols.{protocol_of, is_protocol, protocol_admits};

    // The protocol of a value and a mask, or what is wrong with them.
    pub fn new(value: u8, mask: u8) -> Result<ProtocolMatch, Defect>
        ensures { result ≡ protocol_of value mask }
    {
        if mask != 0 && mask != 255 {
            return Err(Defect::ProtocolMask);
        }
        if value & mask != value {
            return Err(Defect::StrayBit);
        }
        Ok(ProtocolMatch { value, mask })
    }

    // Whether a protocol is the one asked for.
    pub fn contains(&self, protocol: u8) -> bool
        ensures { result ≡ is_protocol self.now protocol }
    {
        protocol & self.mask == self.value
    }

    // Whether a value is admitted at bit b: at a mask bit of 1 the own one, at 0 both.
    pub(crate) fn admits(&self, b: usize, value: bool) -> bool
        requires { b < 8 }
        ensures { result ≡ protocol_admits self.now b value }
    {
        // `|`, which asks both: neither answer is likelier.
        !digit(u64::from(self.mask), 7 - b) | (value == digit(u64::from(self.value), 7 - b))
    }
}
