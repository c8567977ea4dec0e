// Tables of the seven lines: where their numbers lie, and each refusal.
use super::bits_tests::pair;
use bits::Bits;
use blocks::{Change, Refusal, Tally};
use bridge::{Bridge, Row};
use kinds::FaultCode;
use layout::Spoilt;
use std::test::Fail;

#[test]
fn refuses_a_small_area(rt: HostRuntime) -> Result<(), Fail> {
    let bits = pair(1, 2).ok_or("no bits")?;
    let mut area = [7u32; 16];
    let mut tally = [5u32; 6];
    let laid = layout::lay::<Bridge>(&seven_lines::lines(), None, &bits, &mut area, &mut tally);
    assert_eq!(rt; laid, Err(Refusal::NoRoom));
    assert_eq!(rt; area, [7u32; 16]);
    assert_eq!(rt; tally, [0u32; 6]);
    Ok(())
}

#[test]
fn refuses_a_short_tally(rt: HostRuntime) -> Result<(), Fail> {
    let bits = pair(1, 2).ok_or("no bits")?;
    let mut area = [7u32; 17];
    let mut tally = [5u32; 3];
    let laid = layout::lay::<Bridge>(&seven_lines::lines(), None, &bits, &mut area, &mut tally);
    assert_eq!(rt; laid, Err(Refusal::ShortTally));
    assert_eq!(rt; area, [7u32; 17]);
    assert_eq!(rt; tally, [5u32; 3]);
    Ok(())
}

#[test]
fn refuses_many_lines(rt: HostRuntime) {
    assert_eq!(rt; blocks::ready(16384, 1, 1), Ok(()));
    assert_eq!(rt; blocks::ready(16385, 1, 0), Err(Refusal::TooManyLines));
}

#[test]
fn lays_into_used_memory(rt: HostRuntime) -> Result<(), Fail> {
    let bits = pair(1, 2).ok_or("no bits")?;
    let mut area = [9u32; 20];
    let mut tally = [9u32; 5];
    let laid = layout::lay::<Bridge>(&seven_lines::lines(), None, &bits, &mut area, &mut tally);
    assert_eq!(rt; laid, Ok(()));
    assert_eq!(rt;
        area,
        [
            0u32, 3, 6, 9, 12, 2, 5, 6, 0, 2, 6, 1, 5, 6, 3, 4, 6, 0, 0, 0,
        ]
    );
    assert_eq!(rt; tally, [0u32; 5]);
    Ok(())
}

// A struck line and a marked line whose row holds no rule are in no block.
#[test]
fn lays_filled_lines_alone(rt: HostRuntime) {
    let mut lines = seven_lines::lines();
    lines[3].mark = false;
    lines[6].row.value.first = 1;
    let mut area = [9u32; 8];
    let mut tally = [0u32; 1];
    let laid = layout::lay::<Bridge>(&lines, None, &Bits::none(), &mut area, &mut tally);
    assert_eq!(rt; laid, Ok(()));
    assert_eq!(rt; area, [0u32, 5, 0, 1, 2, 4, 5, 0]);
}

// Whether the table of the seven lines, of which one may be replaced, fits so many places.
fn fits(change: Option<Change<Row>>, room: usize) -> Option<Result<(), Refusal>> {
    let bits = pair(1, 2)?;
    let mut tally = [9u32; 4];
    Some(Tally::new(&mut tally).fits::<Bridge>(&seven_lines::lines(), change, &bits, room))
}

// Counted as if line 4 were struck, as if line 3 were put anew, and with no such line.
#[test]
fn counts_a_change(rt: HostRuntime) {
    let lines = seven_lines::lines();
    assert_eq!(rt; fits(None, 17), Some(Ok(())));
    assert_eq!(rt; fits(None, 16), Some(Err(Refusal::NoRoom)));
    let mut line = lines[4];
    line.mark = false;
    assert_eq!(rt; fits(Some(Change { place: 4, line }), 16), Some(Ok(())));
    let line = lines[6];
    assert_eq!(rt;
        fits(Some(Change { place: 3, line }), 19),
        Some(Err(Refusal::NoRoom))
    );
    assert_eq!(rt; fits(Some(Change { place: 3, line }), 20), Some(Ok(())));
    assert_eq!(rt; fits(Some(Change { place: 7, line }), 17), Some(Ok(())));
}

#[test]
fn tells_refusals_by_number(rt: HostRuntime) {
    assert_eq!(rt; FaultCode::from(Refusal::TooManyLines).number, 9);
    assert_eq!(rt; FaultCode::from(Refusal::NoRoom).number, 13);
    assert_eq!(rt; FaultCode::from(Refusal::ShortTally).number, 14);
    assert_eq!(rt; FaultCode::from(Spoilt::Bounds).number, 15);
    assert_eq!(rt; FaultCode::from(Spoilt::Entry).number, 15);
}
