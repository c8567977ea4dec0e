// Looking into areas of any content: spoilt starts, spoilt entries, and what is not met.
use super::bits_tests::pair;
use bridge::Bridge;
use layout::Spoilt;
use std::test::Fail;

// The table of the seven lines for the bits 1 and 2.
const AREA: [u32; 17] = [0, 3, 6, 9, 12, 2, 5, 6, 0, 2, 6, 1, 5, 6, 3, 4, 6];

// What an area answers a frame that begins with e0, which belongs to the last block.
fn answer(area: &[u32]) -> Option<Result<Option<usize>, Spoilt>> {
    let bits = pair(1, 2)?;
    let header = seven_lines::header(0xe0);
    let found = layout::look_up::<Bridge>(&seven_lines::lines(), &bits, area, &header);
    Some(found.map(|(line, _)| line))
}

#[test]
fn finds_spoilt_starts(rt: HostRuntime) {
    assert_eq!(rt; answer(&AREA), Some(Ok(Some(4))));
    let mut area = AREA;
    area[3] = 13;
    assert_eq!(rt;
        answer(&area),
        Some(Err(Spoilt::Bounds)),
        "a start above the next"
    );
    area[3] = 9;
    area[4] = 13;
    assert_eq!(rt;
        answer(&area),
        Some(Err(Spoilt::Bounds)),
        "a block past the end"
    );
    assert_eq!(rt;
        answer(&AREA[0..4]),
        Some(Err(Spoilt::Bounds)),
        "too few starts"
    );
}

#[test]
fn finds_spoilt_entries(rt: HostRuntime) {
    let mut area = AREA;
    area[14] = 7;
    assert_eq!(rt;
        answer(&area),
        Some(Err(Spoilt::Entry)),
        "no line of that number"
    );
    area[14] = 3;
    area[16] = 7;
    assert_eq!(rt; answer(&area), Some(Ok(Some(4))), "spoilt behind the match");
}

#[test]
fn finds_an_empty_line(rt: HostRuntime) -> Result<(), Fail> {
    let bits = pair(1, 2).ok_or("no bits")?;
    let mut lines = seven_lines::lines();
    lines[3].mark = false;
    let found = layout::look_up::<Bridge>(&lines, &bits, &AREA, &seven_lines::header(0xe0));
    assert_eq!(rt; found, Err(Spoilt::Entry));
    Ok(())
}
