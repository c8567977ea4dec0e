// Frames and bridge rules: limits, bits and refusals.
use super::refusals::{refusal, refused};
use bridge::{Bridge, Header, Octets, Row, Rule};
use kinds::Kind;
use std::test::Fail;

const FRAME: [u8; 15] = [0x80, 1, 2, 3, 4, 5, 6, 7, 8, 9, 10, 11, 0x08, 0x01, 0xff];

#[test]
fn reads_frames(rt: HostRuntime) -> Result<(), Fail> {
    let header = Header::read(&FRAME)?;
    assert_eq!(rt; header.octets.first, 0x8001_0203_0405_0607);
    assert_eq!(rt; header.octets.middle, 0x0809_0a0b);
    assert_eq!(rt; header.octets.last, 0x0801);
    assert!(rt;
        Bridge::bit(&header, 0),
        "the first byte's most significant bit"
    );
    assert!(rt; !Bridge::bit(&header, 1));
    assert!(rt; Bridge::bit(&header, 100), "0x08 of the length or type");
    assert!(rt; Bridge::bit(&header, 111), "the last bit");
    assert!(rt; !Bridge::bit(&header, 112), "beyond the width");
    Ok(())
}

#[test]
fn refuses_frames_and_rows(rt: HostRuntime) {
    assert!(rt; Header::read(&FRAME[0..14]).is_ok(), "14 bytes");
    assert_eq!(rt;
        refusal(Header::read(&FRAME[0..13])),
        refused(1, 0),
        "13 bytes"
    );
    let none = Octets {
        first: 0,
        middle: 0,
        last: 0,
    };
    let last = Octets {
        first: 0,
        middle: 0,
        last: 1,
    };
    assert_eq!(rt;
        refusal(Rule::try_from(Row {
            value: none,
            mask: last
        })),
        None
    );
    assert_eq!(rt;
        refusal(Rule::try_from(Row {
            value: last,
            mask: none
        })),
        refused(6, 0),
        "a value bit outside the mask"
    );
}
