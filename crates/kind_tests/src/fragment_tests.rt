// Fragments of RFC 791: which headers are portless, what their port bits are, and which rules match them.
use super::refusals::{refusal, refused};
use kinds::Kind;
use routed::{Header, Ports, Routed, Row, Rule};
use std::test::Fail;

const ICMP: u8 = 1;

const TCP: u8 = 6;

const UDP: u8 = 17;

const PORTS: Option<Ports> = Some(Ports {
    source: 8080,
    destination: 53,
});

const ZEROS: Option<Ports> = Some(Ports {
    source: 0,
    destination: 0,
});

// A packet whose header is followed by four bytes: the ports 8080 and 53, unless it is a later fragment.
fn packet(first: u8, protocol: u8, flags_and_offset: u16) -> [u8; 24] {
    let [high, low] = flags_and_offset.to_be_bytes();
    [
        first, 0, 0, 24, 0, 0, high, low, 64, protocol, 0, 0, 10, 0, 0, 1, 10, 0, 0, 2, 0x1f, 0x90,
        0x00, 0x35,
    ]
}

#[test]
fn reads_no_ports_of_later_fragments(rt: HostRuntime) -> Result<(), Fail> {
    let cases = [
        (UDP, 0x0000, PORTS),
        // Flags alone: a reserved one, don't fragment, more fragments, all three.
        (UDP, 0x8000, PORTS),
        (UDP, 0x4000, PORTS),
        (UDP, 0x2000, PORTS),
        (UDP, 0xe000, PORTS),
        (TCP, 0x2000, PORTS),
        // Later fragments: the offsets 1 and 8,191, and one in the higher byte alone, without flags and with some.
        (UDP, 0x0001, None),
        (UDP, 0x1fff, None),
        (UDP, 0x0100, None),
        (UDP, 0x2001, None),
        (UDP, 0xf000, None),
        (TCP, 0x0001, None),
        (TCP, 0x3fff, None),
        // Another protocol has ports 0 in every fragment: those next to TCP and UDP, and one that has ports of its own.
        (ICMP, 0x0000, ZEROS),
        (ICMP, 0x0001, ZEROS),
        (ICMP, 0x3fff, ZEROS),
        (5, 0x0001, ZEROS),
        (7, 0x0001, ZEROS),
        (16, 0x0001, ZEROS),
        (18, 0x0001, ZEROS),
        (132, 0x0001, ZEROS),
    ];
    for (protocol, flags_and_offset, ports) in cases {
        let header = Header::read(&packet(0x45, protocol, flags_and_offset))?;
        assert_eq!(rt;
            header.ports,
            ports,
            "protocol {protocol}, flags and offset {flags_and_offset}"
        );
        assert_eq!(rt; header.source, 0x0a00_0001);
        assert_eq!(rt; header.destination, 0x0a00_0002);
        assert_eq!(rt; header.protocol, protocol);
    }
    Ok(())
}

#[test]
fn checks_all_but_the_ports_of_later_fragments(rt: HostRuntime) {
    let cases = [
        (0x45, TCP, 0x2000, 23, refused(4, 0)),
        (0x45, UDP, 0x2000, 23, refused(4, 0)),
        // Ports are not asked of a later fragment, and all else is.
        (0x45, TCP, 0x2001, 23, None),
        (0x45, UDP, 0x2001, 23, None),
        (0x45, UDP, 0x0001, 20, None),
        (0x46, UDP, 0x0001, 24, None),
        (0x45, UDP, 0x0001, 19, refused(1, 0)),
        (0x65, UDP, 0x0001, 24, refused(2, 0)),
        (0x44, UDP, 0x0001, 24, refused(3, 0)),
        (0x47, UDP, 0x0001, 24, refused(3, 0)),
        (0x45, ICMP, 0x0001, 20, None),
    ];
    for (first, protocol, flags_and_offset, length, code) in cases {
        let packet = packet(first, protocol, flags_and_offset);
        assert_eq!(rt;
            refusal(Header::read(&packet[..length.min(24)])),
            code,
            "first byte {first}, protocol {protocol}, flags and offset {flags_and_offset}, {length} bytes"
        );
    }
}

// A header by its ports, all else equal.
fn header(ports: Option<Ports>) -> Header {
    Header {
        source: 0x0a00_0001,
        destination: 0x0a00_0002,
        ports,
        protocol: UDP,
    }
}

#[test]
fn port_bits_of_a_portless_header_are_zero(rt: HostRuntime) {
    let ones = header(Some(Ports {
        source: 65535,
        destination: 65535,
    }));
    let portless = header(None);
    for b in 64..96 {
        assert!(rt; Routed::bit(&ones, b), "bit {b} of two ports of ones");
        assert!(rt; !Routed::bit(&portless, b), "bit {b} of no ports");
    }
    for b in (0..64).chain(96..105) {
        assert_eq!(rt;
            Routed::bit(&portless, b),
            Routed::bit(&ones, b),
            "bit {b}, which is no port's"
        );
    }
}

#[test]
fn only_whole_ranges_match_portless_headers(rt: HostRuntime) -> Result<(), Fail> {
    // The ends of the source and the destination ports; whether a rule of these matches a portless header, and one with ports 0.
    let cases = [
        (0, 65535, 0, 65535, true, true),
        (0, 65534, 0, 65535, false, true),
        (1, 65535, 0, 65535, false, false),
        (0, 65535, 0, 65534, false, true),
        (0, 65535, 1, 65535, false, false),
        (0, 0, 0, 65535, false, true),
        (0, 65535, 0, 0, false, true),
        (0, 0, 0, 0, false, true),
        (53, 53, 0, 65535, false, false),
    ];
    for (source_low, source_high, destination_low, destination_high, portless, zeros) in cases {
        let rule = Rule::try_from(Row {
            source_low,
            source_high,
            destination_low,
            destination_high,
            ..Row::ALL
        })?;
        assert_eq!(rt; Routed::matches(&rule, &header(None)), portless);
        assert_eq!(rt; Routed::matches(&rule, &header(ZEROS)), zeros);
    }
    Ok(())
}

#[test]
fn portless_headers_are_matched_by_addresses_and_protocol(rt: HostRuntime) -> Result<(), Fail> {
    let here = Row {
        source: 0x0a00_0001,
        source_length: 32,
        destination: 0x0a00_0000,
        destination_length: 24,
        protocol: UDP,
        mask: 255,
        ..Row::ALL
    };
    let cases = [
        (here, true),
        (Row::ALL, true),
        (
            Row {
                source: 0x0a00_0003,
                ..here
            },
            false,
        ),
        (
            Row {
                destination: 0x0a00_0100,
                ..here
            },
            false,
        ),
        (
            Row {
                protocol: TCP,
                ..here
            },
            false,
        ),
    ];
    for (row, matches) in cases {
        let rule = Rule::try_from(row)?;
        assert_eq!(rt; Routed::matches(&rule, &header(None)), matches, "{row:?}");
        assert_eq!(rt; Routed::matches(&rule, &header(PORTS)), matches, "{row:?}");
    }
    Ok(())
}
