// A kind whose headers have two bits: a rule matches one header.
ghost use Rattle.choice_tests.specs.Narrow.{narrow, same, pair_bit};
ghost use Rattle.choice_tests.specs.Law.{narrow_lawful};

use bits::Bits;
use kinds::{Alone, Kind, admits_each};

// The two bits of a header, and what a rule and a row are.
#[derive(Clone, Copy, Debug, PartialEq, Eq)]
pub struct Pair {
    pub first: bool,
    pub second: bool,
}

// At each bit its own value alone.
impl Alone for Pair {
    ghost alone = { λ rule b value. same (pair_bit rule b) value };

    fn admits_alone(&self, b: usize, value: bool) -> bool {
        Narrow::bit(self, b) == value
    }
}

pub struct Narrow;

impl Kind for Narrow {
    type Header = Pair;

    type Rule = Pair;

    type Row = Pair;

    ghost meaning = { narrow };

    ghost lawful = { narrow_lawful };

    fn width() -> usize {
        2
    }

    fn bit(header: &Pair, b: usize) -> bool {
        match b {
            0 => header.first,
            1 => header.second,
            _ => false,
        }
    }

    fn matches(rule: &Pair, header: &Pair) -> bool {
        rule.first == header.first && rule.second == header.second
    }

    fn admits(rule: &Pair, bits: &Bits, cell: usize) -> bool {
        admits_each(rule, bits, cell)
    }

    fn rule(row: &Pair) -> Option<Pair> {
        Some(*row)
    }

    fn row(rule: &Pair) -> Pair {
        *rule
    }
}
