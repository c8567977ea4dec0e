// Routed rules: the limits of each field, and each refusal with its place.
use super::refusals::{refusal, refused};
use routed::{Row, Rule};

fn prefixes(source: u32, source_length: u8, destination: u32, destination_length: u8) -> Row {
    Row {
        source,
        source_length,
        destination,
        destination_length,
        ..Row::ALL
    }
}

fn ports(source_low: u16, source_high: u16, destination_low: u16, destination_high: u16) -> Row {
    Row {
        source_low,
        source_high,
        destination_low,
        destination_high,
        ..Row::ALL
    }
}

fn protocol(protocol: u8, mask: u8) -> Row {
    Row {
        protocol,
        mask,
        ..Row::ALL
    }
}

#[test]
fn refuses_prefixes(rt: HostRuntime) {
    assert_eq!(rt;
        refusal(Rule::try_from(prefixes(0xc0a8_0701, 32, 0, 0))),
        None,
        "length 32"
    );
    assert_eq!(rt;
        refusal(Rule::try_from(prefixes(0xc0a8_0701, 33, 0, 0))),
        refused(5, 1),
        "length 33"
    );
    assert_eq!(rt;
        refusal(Rule::try_from(prefixes(0xc0a8_0701, 31, 0, 0))),
        refused(6, 1),
        "a one past the source prefix"
    );
    assert_eq!(rt;
        refusal(Rule::try_from(prefixes(0, 0, 0, 255))),
        refused(5, 2),
        "destination length 255"
    );
    assert_eq!(rt;
        refusal(Rule::try_from(prefixes(0, 0, 1, 0))),
        refused(6, 2),
        "a one past an empty destination prefix"
    );
    assert_eq!(rt;
        refusal(Rule::try_from(prefixes(1, 0, 0, 33))),
        refused(6, 1),
        "the source comes before the destination"
    );
}

#[test]
fn refuses_ranges_and_protocols(rt: HostRuntime) {
    assert_eq!(rt;
        refusal(Rule::try_from(ports(2, 1, 0, 0))),
        refused(7, 3),
        "source ports backwards"
    );
    assert_eq!(rt;
        refusal(Rule::try_from(ports(0, 0, 65535, 65534))),
        refused(7, 4),
        "destination ports backwards"
    );
    assert_eq!(rt;
        refusal(Rule::try_from(ports(5, 5, 5, 5))),
        None,
        "one port"
    );
    assert_eq!(rt;
        refusal(Rule::try_from(protocol(6, 255))),
        None,
        "one protocol"
    );
    assert_eq!(rt;
        refusal(Rule::try_from(protocol(6, 0))),
        refused(6, 5),
        "a protocol bit outside the mask"
    );
    assert_eq!(rt;
        refusal(Rule::try_from(protocol(6, 254))),
        refused(8, 5),
        "a mask in part"
    );
    assert_eq!(rt;
        refusal(Rule::try_from(protocol(1, 254))),
        refused(8, 5),
        "the mask comes before the bit outside it"
    );
}
