// A packet answered from a table of two routed rules, as the README shows it.
use choice::Limits;
use judges::Largest;
use kinds::{FaultCode, Line};
use routed::{Header, Routed, Row, Rule};
use std::test::Fail;
use table::OpenBook;

fn answer(
    rows: [Row; 2],
    packet: &[u8],
    lines: &mut [Line<Row>],
    area: &mut [u32],
    tally: &mut [u32],
) -> Result<(Option<usize>, usize), FaultCode> {
    let [first, second] = rows;
    let book = OpenBook::<Routed>::open(lines)?;
    book.put(lines, 0, &Rule::try_from(first)?)?;
    book.put(lines, 1, &Rule::try_from(second)?)?;
    let limits = Limits {
        most_bits: 8,
        most_tries: 1000,
    };
    let (book, _) = book
        .measure(lines, area.len(), &Largest, limits, tally)
        .map_err(|refused| refused.fault)?;
    let table = book
        .lay(lines, area, tally)
        .map_err(|refused| refused.fault)?;
    let header = Header::read(packet)?;
    Ok(table.look_up(lines, area, &header)?)
}

// The rule for a destination port.
fn port(port: u16) -> Row {
    Row {
        destination_low: port,
        destination_high: port,
        ..Row::ALL
    }
}

#[test]
fn answers_a_packet(rt: HostRuntime) {
    let rows = [port(53), port(80)];
    let mut packet = [0u8; 24];
    packet[0] = 0x45;
    packet[9] = 17;
    let mut lines = [Line {
        mark: true,
        row: Row::ALL,
    }; 2];
    let mut area = [9u32; 9];
    let mut tally = [9u32; 256];
    for (to, found) in [(53u8, (Some(0), 1)), (80, (Some(1), 1)), (54, (None, 1))] {
        packet[23] = to;
        assert_eq!(rt;
            answer(rows, &packet, &mut lines, &mut area, &mut tally),
            Ok(found)
        );
    }
    let small = answer(rows, &packet, &mut lines, &mut [9u32; 3], &mut tally);
    assert_eq!(rt; small.map_err(|code| code.number), Err(13));
    let short = answer(rows, &packet, &mut lines, &mut area, &mut [9u32; 255]);
    assert_eq!(rt; short.map_err(|code| code.number), Err(14));
    let one = answer(rows, &packet, &mut lines[..1], &mut area, &mut tally);
    assert_eq!(rt; one.map_err(|code| (code.number, code.place)), Err((10, 1)));
}
