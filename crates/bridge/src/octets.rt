// Fourteen bytes and their bits.
ghost use Rattle.std.specs.Prelude.{◌≡◌};
ghost use Rattle.bridge.specs.Bridge.{octets_bit};
ghost use Rattle.bridge.specs.Inside.{octets_and};

use kinds::digit;
use std::ops::BitAnd;

// Fourteen bytes in network order as single numbers: the first eight, the next four, the last two.
#[derive(Clone, Copy, Debug, PartialEq, Eq)]
pub struct Octets {
    pub first: u64,
    pub middle: u32,
    pub last: u16,
}

impl Octets {
    // The value of a bit, counted from the first byte's most significant one; 0 past the fourteenth byte.
    pub fn bit(&self, b: usize) -> bool
        ensures { result ≡ octets_bit self.now b }
    {
        match b {
            0..=63 => digit(self.first, 63 - b),
            64..=95 => digit(u64::from(self.middle), 95 - b),
            96..=111 => digit(u64::from(self.last), 111 - b),
            _ => false,
        }
    }
}

// The bytes with the bits outside a mask set to 0.
impl BitAnd for Octets {
    type Output = Octets;

    ghost bitand_gives = { λ octets mask result. result ≡ octets_and octets mask };

    fn bitand(self, mask: Octets) -> Octets {
        Octets {
            first: self.first & mask.first,
            middle: self.middle & mask.middle,
            last: self.last & mask.last,
        }
    }
}
