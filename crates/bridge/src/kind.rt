// The bridge kind as one of the table's kinds.
ghost use Rattle.std.specs.Prelude.{◌≡◌, ◌↔◌, IsTrue, IfSome, true, Ok, is_some};
ghost use Rattle.kinds.specs.Meaning.{IsMatched};
ghost use Rattle.kinds.specs.Values.{valued, cells_of};
ghost use Rattle.bridge.specs.Bridge.{bridge, rule_in, IsHeader};
ghost use Rattle.bridge.specs.Law.{bridge_lawful};

use super::frame::Header;
use super::rule::{Row, Rule};
use bits::{Bits, Chosen};
use kinds::{Kind, Masked, admits_each, make_masked};

pub struct Bridge;

impl Kind for Bridge {
    type Header = Header;

    type Rule = Rule;

    type Row = Row;

    ghost meaning = { bridge };

    ghost lawful = { bridge_lawful };

    fn width() -> usize {
        112
    }

    fn bit(header: &Header, b: usize) -> bool {
        header.octets.bit(b)
    }

    fn matches(rule: &Rule, header: &Header) -> bool
        ensures answer { result ≡ bridge.matches rule.now header.now }
        ensures all { rule_in Row.ALL ≡ Ok rule.now → result ≡ true }
    {
        header.octets & rule.mask == rule.value
    }

    fn admits(rule: &Rule, bits: &Bits, cell: usize) -> bool
        ensures answer { result ≡ bridge.admits rule.now (valued bits.now cell) }
        ensures exact { IsTrue result ↔ IsMatched bridge IsHeader rule.now (valued bits.now cell) }
    {
        // Read, so that it is known that they have their bytes.
        let _first = rule.value.first;
        let _middle = rule.value.middle;
        let _last = rule.value.last;
        admits_each(rule, bits, cell)
    }

    #[inline(always)]
    #[tactic(auto, using(crate::proofs::Exact::cells_by_bits))]
    fn masked(rule: &Rule, chosen: &Chosen) -> Option<Masked>
        ensures cells { IfSome result (λ cells. cells ≡ cells_of (bridge.admits rule.now) chosen.now) }
        ensures told { is_some result ≡ true }
    {
        Some(make_masked(rule, chosen))
    }

    // The same line in each kind and no body in the trait: no plainer, since the trait would need a bound for this alone.
    fn rule(row: &Row) -> Option<Rule>
        ensures answer { result ≡ bridge.holds row.now }
        ensures all { row.now ≡ Row.ALL → is_some result ≡ true }
    {
        Rule::try_from(*row).ok()
    }

    #[tactic(auto, using(crate::proofs::Made::row_holds))]
    fn row(rule: &Rule) -> Row {
        Row {
            value: rule.value,
            mask: rule.mask,
        }
    }
}
