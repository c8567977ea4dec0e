// Lists of lines of any kind whose rows and headers are read: a line is filled with the rule of a row, and bytes are answered by the first line that matches their header.
ghost use Rattle.std.specs.Prelude.{◌≡◌, ℕ, List, Result};
ghost use Rattle.bridge.specs.Frames.{header_of as frame_header};
ghost use Rattle.bridge.specs.Bridge.{rule_in as bridge_rule};
ghost use Rattle.routed.specs.Packets.{header_of as packet_header};
ghost use Rattle.routed.specs.Routed.{rule_in as routed_rule};
ghost use Rattle.worked_example.specs.Lists.{Fills, Answers};

use bridge::Bridge;
use kinds::{Kind, Line};
use routed::Routed;

// A kind with the reading of its headers and rows, and what either is refused with.
pub(crate) trait Read: Kind {
    type Fault;

    // What bytes are read as.
    ghost header_of: { List ℕ → Result Self.Header Self.Fault };

    // What a row is read as.
    ghost rule_in: { Self.Row → Result Self.Rule Self.Fault };

    fn header(bytes: &[u8]) -> Result<Self::Header, Self::Fault>
        ensures { result ≡ header_of bytes.now };

    fn rule_of(row: Self::Row) -> Result<Self::Rule, Self::Fault>
        ensures { result ≡ rule_in row };
}

impl Read for Bridge {
    type Fault = bridge::Fault;

    ghost header_of = { frame_header };

    ghost rule_in = { bridge_rule };

    fn header(bytes: &[u8]) -> Result<bridge::Header, bridge::Fault> {
        bridge::Header::read(bytes)
    }

    fn rule_of(row: bridge::Row) -> Result<bridge::Rule, bridge::Fault> {
        bridge::Rule::try_from(row)
    }
}

impl Read for Routed {
    type Fault = routed::Fault;

    ghost header_of = { packet_header };

    ghost rule_in = { routed_rule };

    fn header(bytes: &[u8]) -> Result<routed::Header, routed::Fault> {
        routed::Header::read(bytes)
    }

    fn rule_of(row: routed::Row) -> Result<routed::Rule, routed::Fault> {
        routed::Rule::try_from(row)
    }
}

// A line filled with the rule that a row holds, or why it holds none.
pub(crate) fn line<K: Read>(row: K::Row) -> Result<Line<K::Row>, K::Fault>
    ensures { Fills K.meaning (K.rule_in row) result }
{
    K::rule_of(row).map(|rule| kinds::filled::<K>(&rule))
}

// The line that answers bytes, or none, with the lines compared, or why the bytes have no header.
pub(crate) fn answer<K: Read>(
    lines: &[Line<K::Row>],
    bytes: &[u8],
) -> Result<(Option<usize>, usize), K::Fault>
where
    K::Header: Drop,
    ensures { Answers K.meaning lines.now (K.header_of bytes.now) result }
{
    K::header(bytes).map(|header| kinds::first_match::<K>(lines, &header))
}
