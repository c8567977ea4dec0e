// A kind whose rules and headers stand in records.
ghost use Rattle.std.specs.Prelude.{◌≡◌};
ghost use Rattle.job.specs.Readings.{Reading, routed_reading, bridge_reading};

use super::fault::Fault;
use bridge::Bridge;
use kinds::Kind;
use routed::Routed;

pub trait Recorded: Kind {
    ghost reading: { Reading Self.Header Self.Rule Self.Row };

    // The row of a record, if it is one of the kind's.
    fn row_in(row: records::Row) -> Option<Self::Row>
        ensures { result ≡ reading.row_in row };

    // The rule of a row, or why it holds none.
    fn read_rule(row: Self::Row) -> Result<Self::Rule, Fault>
        ensures { result ≡ reading.rule_of row };

    // The header of a packet or a frame, or why it has none.
    fn read_header(packet: &[u8]) -> Result<Self::Header, Fault>
        ensures { result ≡ reading.header_of packet.now };
}

impl Recorded for Routed {
    ghost reading = { routed_reading };

    fn row_in(row: records::Row) -> Option<routed::Row> {
        match row {
            records::Row::Routed(row) => Some(row),
            records::Row::Bridge(_) => None,
        }
    }

    fn read_rule(row: routed::Row) -> Result<routed::Rule, Fault> {
        Ok(routed::Rule::try_from(row)?)
    }

    fn read_header(packet: &[u8]) -> Result<routed::Header, Fault> {
        Ok(routed::Header::read(packet)?)
    }
}

impl Recorded for Bridge {
    ghost reading = { bridge_reading };

    fn row_in(row: records::Row) -> Option<bridge::Row> {
        match row {
            records::Row::Bridge(row) => Some(row),
            records::Row::Routed(_) => None,
        }
    }

    fn read_rule(row: bridge::Row) -> Result<bridge::Rule, Fault> {
        Ok(bridge::Rule::try_from(row)?)
    }

    fn read_header(packet: &[u8]) -> Result<bridge::Header, Fault> {
        Ok(bridge::Header::read(packet)?)
    }
}
