// Packets of RFC 791: what is read, and each refusal.
use super::refusals::{refusal, refused};
use routed::{Header, Ports};
use std::test::Fail;

// A header of five words from 10.0.0.1 to 10.0.0.2, with room for an option word and ports behind it.
fn packet(first: u8, protocol: u8) -> [u8; 28] {
    [
        first, 0, 0, 28, 0, 0, 0, 0, 64, protocol, 0, 0, 10, 0, 0, 1, 10, 0, 0, 2, 0x1f, 0x90,
        0x00, 0x35, 0x12, 0x34, 0xab, 0xcd,
    ]
}

fn ports(packet: &[u8]) -> Option<(u16, u16)> {
    Header::read(packet)
        .ok()
        .and_then(|header| header.ports)
        .map(|ports| (ports.source, ports.destination))
}

#[test]
fn reads_fields(rt: HostRuntime) -> Result<(), Fail> {
    let header = Header::read(&packet(0x45, 6))?;
    assert_eq!(rt; header.source, 0x0a00_0001);
    assert_eq!(rt; header.destination, 0x0a00_0002);
    assert_eq!(rt; header.protocol, 6);
    assert_eq!(rt;
        header.ports,
        Some(Ports {
            source: 8080,
            destination: 53
        })
    );
    Ok(())
}

#[test]
fn places_ports(rt: HostRuntime) {
    assert_eq!(rt; ports(&packet(0x45, 17)), Some((8080, 53)), "UDP");
    assert_eq!(rt;
        ports(&packet(0x46, 6)),
        Some((0x1234, 0xabcd)),
        "TCP behind one option word"
    );
    assert_eq!(rt; ports(&packet(0x45, 1)), Some((0, 0)), "ICMP");
}

#[test]
fn refuses_packets(rt: HostRuntime) {
    let udp = packet(0x45, 17);
    assert_eq!(rt; refusal(Header::read(&udp[0..24])), None, "24 bytes");
    assert_eq!(rt;
        refusal(Header::read(&udp[0..23])),
        refused(4, 0),
        "23 bytes"
    );
    assert_eq!(rt;
        refusal(Header::read(&packet(0x45, 1)[0..20])),
        None,
        "ICMP needs no ports"
    );
    assert_eq!(rt;
        refusal(Header::read(&udp[0..19])),
        refused(1, 0),
        "19 bytes"
    );
    assert_eq!(rt;
        refusal(Header::read(&packet(0x65, 17))),
        refused(2, 0),
        "version 6"
    );
    assert_eq!(rt;
        refusal(Header::read(&packet(0x44, 17))),
        refused(3, 0),
        "four words"
    );
    assert_eq!(rt;
        refusal(Header::read(&packet(0x48, 17))),
        refused(3, 0),
        "a header past the last byte"
    );
    assert_eq!(rt;
        refusal(Header::read(&packet(0x64, 17))),
        refused(2, 0),
        "the version comes before the header length"
    );
}
