// A kind of header: each function tells one fact of the kind's meaning, refuses nothing and changes nothing.
ghost use Rattle.std.specs.Prelude.{◌≡◌, Some, IfSome};
ghost use Rattle.kinds.specs.Meaning.{Meaning, Lawful};
ghost use Rattle.kinds.specs.Values.{valued, cells_of};

use super::cells::Cells;
use super::masked::Masked;
use bits::{Bits, Chosen};

pub trait Kind {
    type Header;

    type Rule: Drop;

    type Row: Copy;

    ghost meaning: { Meaning Self.Header Self.Rule Self.Row };

    // How many bits a header has.
    fn width() -> usize
        ensures { result ≡ meaning.width };

    // The value of one bit of a header.
    fn bit(header: &Self::Header, b: usize) -> bool
        ensures { result ≡ meaning.bit header.now b };

    // Whether a rule matches a header.
    fn matches(rule: &Self::Rule, header: &Self::Header) -> bool
        ensures { result ≡ meaning.matches rule.now header.now };

    // Whether a rule admits some values together: those that a cell's number gives to some bits, the first bit most significant.
    fn admits(rule: &Self::Rule, bits: &Bits, cell: usize) -> bool
        ensures { result ≡ meaning.admits rule.now (valued bits.now cell) };

    // The cells of some bits that a rule admits, where they are told by each bit alone; or none.
    fn masked(_rule: &Self::Rule, _chosen: &Chosen) -> Option<Masked>
        ensures { IfSome result (λ cells. cells ≡ cells_of (meaning.admits _rule.now) _chosen.now) }
    {
        // Then the cells are asked of `cells`.
        None
    }

    // The cells of some bits that a rule admits, in rising order; or none, and then each cell is asked for. A kind that finds them faster tells them.
    fn cells(_rule: &Self::Rule, _chosen: &Chosen) -> Option<Cells>
        ensures { IfSome result (λ cells. cells ≡ cells_of (meaning.admits _rule.now) _chosen.now) }
    {
        // Then each cell is asked for.
        None
    }

    // The rule that a row holds, if any.
    fn rule(row: &Self::Row) -> Option<Self::Rule>
        ensures { result ≡ meaning.holds row.now };

    // A rule's row, which holds that rule.
    fn row(rule: &Self::Rule) -> Self::Row
        ensures { meaning.holds result ≡ Some rule.now };

    ghost lawful: { Lawful meaning };
}
