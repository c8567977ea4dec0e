// Address prefixes.
ghost use Rattle.std.specs.Prelude.{◌≡◌, ◌-◌, ◌%◌, ◌^◌, ◌<◌, ◌≤◌, ◌==◌};

use super::fault::Defect;

// The first bits of an address; the address has no one past them.
#[derive(Clone, Copy, Debug, PartialEq, Eq)]
pub struct Prefix {
    pub(crate) address: u32,
    pub(crate) length: u8,
    ghost short: { length ≤ 32 },
    ghost clean: { address % 2 ^ (32 - length) ≡ 0 },
}

impl Prefix {
    ghost use Rattle.routed.specs.Prefixes.{prefix_of, in_prefix, prefix_admits};

    // The prefix of an address and a length, or what is wrong with them.
    pub fn new(address: u32, length: u8) -> Result<Prefix, Defect>
        ensures { result ≡ prefix_of address length }
    {
        if length > 32 {
            return Err(Defect::PrefixLength);
        }
        if !is_clean(address, length) {
            return Err(Defect::StrayBit);
        }
        Ok(Prefix { address, length })
    }

    // Whether an address begins with the prefix.
    pub fn contains(&self, address: u32) -> bool
        ensures { result ≡ in_prefix self.now address }
    {
        let free = 32 - self.length;
        u64::from(address) >> free == u64::from(self.address) >> free
    }

    // Whether a value is admitted at bit b: the own one below the length, both from there on.
    pub(crate) fn admits(&self, b: usize, value: bool) -> bool
        requires { b < 32 }
        ensures { result ≡ prefix_admits self.now b value }
    {
        let place = 31 - b;
        let free = usize::from(32 - self.length);
        let own = (self.address >> place) % 2 == 1;
        // `|`, which asks both: neither answer is likelier.
        (place < free) | (value == own)
    }
}

// Whether an address has no one past its first bits.
fn is_clean(address: u32, length: u8) -> bool
    requires { length ≤ 32 }
    ensures { result ≡ (address % 2 ^ (32 - length) == 0) }
{
    // The first bits are moved out, and the rest is what is left of 32 bits.
    (u64::from(address) << length) % (1 << 32) == 0
}
