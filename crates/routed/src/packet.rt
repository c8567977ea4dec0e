// A packet's header by RFC 791, with the ports of RFC 9293 and RFC 768, and reading it.
ghost use Rattle.std.specs.Prelude.{◌≡◌, length, if◌then◌else◌, nat_lt, Some, None};
ghost use Rattle.routed.specs.Packets.{header_of, has_ports, is_later_fragment, first_ports, port_bits};

use super::fault::Fault;

const TCP: u8 = 6;

const UDP: u8 = 17;

// The ports of a packet whose protocol has none, and what stands in the port bits of a portless header.
const ZERO_PORTS: Ports = Ports {
    source: 0,
    destination: 0,
};

// The two ports of a packet.
#[derive(Clone, Copy, Debug, PartialEq, Eq)]
pub struct Ports {
    pub source: u16,
    pub destination: u16,
}

impl Ports {
    // The ports that bytes begin with.
    fn read(bytes: &[u8]) -> Option<Ports>
        ensures { result ≡ (if nat_lt (length bytes.now) 4 then None else Some (first_ports bytes.now)) }
    {
        let [a, b, c, d, ..] = bytes else {
            return None;
        };
        Some(Ports {
            source: u16::from_be_bytes([*a, *b]),
            destination: u16::from_be_bytes([*c, *d]),
        })
    }
}

// What rules are compared with.
#[derive(Clone, Copy, Debug, PartialEq, Eq)]
pub struct Header {
    pub source: u32,
    pub destination: u32,
    // None where the header is portless: that of a later fragment of TCP or UDP. Other protocols have the ports 0 and 0.
    pub ports: Option<Ports>,
    pub protocol: u8,
}

impl Header {
    // The header of a packet. Options are skipped; checksum and total length are not examined.
    // No `TryFrom`: it would be no plainer, and say that a whole value is converted, where what stands behind the ports is not read.
    pub fn read(packet: &[u8]) -> Result<Header, Fault>
        ensures { result ≡ header_of packet.now }
    {
        let [
            first,
            _,
            _,
            _,
            _,
            _,
            offset_high,
            offset_low,
            _,
            protocol,
            _,
            _,
            a,
            b,
            c,
            d,
            e,
            f,
            g,
            h,
            ..
        ] = packet
        else {
            return Err(Fault::Short);
        };
        if *first / 16 != 4 {
            return Err(Fault::Version);
        }
        let end = 4 * usize::from(*first % 16);
        if end < 20 || end > packet.len() {
            return Err(Fault::HeaderLength);
        }
        let later = is_later_fragment(u16::from_be_bytes([*offset_high, *offset_low]));
        let ports = match (has_ports(*protocol), later) {
            (false, _) => Some(ZERO_PORTS),
            (true, true) => None,
            (true, false) => Some(Ports::read(&packet[end..]).ok_or(Fault::NoPorts)?),
        };
        Ok(Header {
            source: u32::from_be_bytes([*a, *b, *c, *d]),
            destination: u32::from_be_bytes([*e, *f, *g, *h]),
            ports,
            protocol: *protocol,
        })
    }

    // The numbers in its port bits: 0 and 0 where it is portless.
    pub(crate) fn port_bits(&self) -> Ports
        ensures { result ≡ port_bits self.now.ports }
    {
        self.ports.unwrap_or(ZERO_PORTS)
    }
}

// Whether packets of a protocol begin with two ports.
fn has_ports(protocol: u8) -> bool
    ensures { result ≡ has_ports protocol }
{
    protocol == TCP || protocol == UDP
}

// Whether a packet with these bytes 6 and 7 is a fragment behind the first: the low 13 bits are its offset, and three flags stand above.
fn is_later_fragment(flags_and_offset: u16) -> bool
    ensures { result ≡ is_later_fragment flags_and_offset }
{
    flags_and_offset % (1 << 13) != 0
}
