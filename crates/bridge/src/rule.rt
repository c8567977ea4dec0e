// A rule, and the plain numbers that may hold one.
ghost use Rattle.std.specs.Prelude.{◌≡◌, true};
ghost use Rattle.bridge.specs.Inside.{inside};

use super::fault::Fault;
use super::octets::Octets;

// The plain numbers of a rule; not all of them hold one.
#[derive(Clone, Copy, Debug, PartialEq, Eq)]
pub struct Row {
    pub value: Octets,
    pub mask: Octets,
}

// No bit is set.
const NO_BITS: Octets = Octets {
    first: 0,
    middle: 0,
    last: 0,
};

impl Row {
    // The numbers of the rule that matches every header.
    pub const ALL: Row = Row {
        value: NO_BITS,
        mask: NO_BITS,
    };
}

// A value under a mask; no value bit lies outside the mask.
#[derive(Clone, Copy, Debug, PartialEq, Eq)]
pub struct Rule {
    pub(crate) value: Octets,
    pub(crate) mask: Octets,
    ghost inside: { inside value mask ≡ true },
}

// The rule that a row holds, or why it holds none.
impl TryFrom<Row> for Rule {
    ghost use Rattle.bridge.specs.Bridge.{rule_in};

    type Error = Fault;

    ghost try_from_gives = { λ row result. result ≡ rule_in row };

    fn try_from(row: Row) -> Result<Rule, Fault> {
        if row.value & row.mask != row.value {
            return Err(Fault::StrayBit);
        }
        Ok(Rule {
            value: row.value,
            mask: row.mask,
        })
    }
}
