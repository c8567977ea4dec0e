// The routed kind as one of the table's kinds.
ghost use Rattle.std.specs.Prelude.{◌≡◌, ◌↔◌, IsTrue, IfSome, true, Ok, is_some};
ghost use Rattle.kinds.specs.Meaning.{IsMatched};
ghost use Rattle.kinds.specs.Values.{valued, cells_of};
ghost use Rattle.routed.specs.Routed.{routed, rule_in, IsHeader};
ghost use Rattle.routed.specs.Law.{routed_lawful};

use super::packet::Header;
use super::rule::{Row, Rule};
use bits::{Bits, Chosen};
use kinds::{Cells, Kind, Masked, admits_each, digit, make_masked};

pub struct Routed;

impl Kind for Routed {
    type Header = Header;

    type Rule = Rule;

    type Row = Row;

    ghost meaning = { routed };

    ghost lawful = { routed_lawful };

    fn width() -> usize {
        104
    }

    fn bit(header: &Header, b: usize) -> bool {
        match b {
            0..=31 => digit(u64::from(header.source), 31 - b),
            32..=63 => digit(u64::from(header.destination), 63 - b),
            64..=79 => digit(u64::from(header.port_bits().source), 79 - b),
            80..=95 => digit(u64::from(header.port_bits().destination), 95 - b),
            96..=103 => digit(u64::from(header.protocol), 103 - b),
            _ => false,
        }
    }

    fn matches(rule: &Rule, header: &Header) -> bool
        ensures answer { result ≡ routed.matches rule.now header.now }
        ensures all { rule_in Row.ALL ≡ Ok rule.now → result ≡ true }
    {
        rule.source.contains(header.source)
            && rule.destination.contains(header.destination)
            && rule.protocol.contains(header.protocol)
            && rule.takes_ports(header.ports)
    }

    // At each bit alone, and at those of a range together.
    fn admits(rule: &Rule, bits: &Bits, cell: usize) -> bool
        ensures answer { result ≡ routed.admits rule.now (valued bits.now cell) }
        ensures exact { IsTrue result ↔ IsMatched routed IsHeader rule.now (valued bits.now cell) }
    {
        // Read, so that it is known that they have their bits.
        let _source = rule.source.address;
        let _destination = rule.destination.address;
        let _source_high = rule.source_ports.high;
        let _destination_high = rule.destination_ports.high;
        let _protocol = rule.protocol.value;
        let chosen = Chosen::new(bits);
        let source = rule.source_ports.span(4, &chosen);
        let destination = rule.destination_ports.span(5, &chosen);
        admits_each(rule, bits, cell) & source.has(cell) & destination.has(cell)
    }

    #[inline(always)]
    fn masked(rule: &Rule, chosen: &Chosen) -> Option<Masked> {
        // First, since it is mostly wanted, and the rule is then still in registers.
        let masked = make_masked(rule, chosen);
        if rule.source_ports.is_even(chosen.sixteen(4))
            && rule.destination_ports.is_even(chosen.sixteen(5))
        {
            Some(masked)
        } else {
            None
        }
    }

    #[inline(always)]
    fn cells(rule: &Rule, chosen: &Chosen) -> Option<Cells>
        ensures cells { IfSome result (λ cells. cells ≡ cells_of (routed.admits rule.now) chosen.now) }
        ensures told { is_some result ≡ true }
    {
        let masked = make_masked(rule, chosen);
        let source = rule.source_ports.span(4, chosen);
        let destination = rule.destination_ports.span(5, chosen);
        Some(Cells::new(masked, source, destination))
    }

    // The same line in each kind and no body in the trait: no plainer, since the trait would need a bound for this alone.
    fn rule(row: &Row) -> Option<Rule>
        ensures answer { result ≡ routed.holds row.now }
        ensures all { row.now ≡ Row.ALL → is_some result ≡ true }
    {
        Rule::try_from(*row).ok()
    }

    #[tactic(auto, using(crate::proofs::Made::row_holds))]
    fn row(rule: &Rule) -> Row {
        Row {
            source: rule.source.address,
            source_length: rule.source.length,
            destination: rule.destination.address,
            destination_length: rule.destination.length,
            source_low: rule.source_ports.low,
            source_high: rule.source_ports.high,
            destination_low: rule.destination_ports.low,
            destination_high: rule.destination_ports.high,
            protocol: rule.protocol.value,
            mask: rule.protocol.mask,
        }
    }
}
