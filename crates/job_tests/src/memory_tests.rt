// The same job with enough memory and with too little of each sort, and with no room to print.
use super::jobs::{BRIDGE, ROUTED, job};
use std::io;

// What the job prints, with so many lines, an area and a tally of such lengths.
fn printed(rt: &impl AllocGlobal, lines: usize, area: usize, tally: usize) -> io::Result<Vec<u8>> {
    let job = job(rt.alloc())?;
    let mut bridge = vec![in rt.alloc(); BRIDGE; lines]?;
    let mut area = vec![in rt.alloc(); 7u32; area]?;
    let mut tally = vec![in rt.alloc(); 7u32; tally]?;
    let mut out = Vec::new(rt.alloc());
    job::run(
        &job,
        &mut [ROUTED; 1],
        &mut bridge,
        &mut area,
        &mut tally,
        &mut out,
    )?;
    Ok(out)
}

#[test]
fn enough_and_too_little(rt: HostRuntime) -> io::Result<()> {
    let no_lines =
        "refused 9 layer 2 place 0 at 0\nrefused 19 layer 3 place 0 at 7\nrefused 19 layer 3 place 0 at 41\nrefused 19 layer 3 place 0 at 51\n";
    let no_room = "refused 13 layer 2 place 0 at 41\nrefused 19 layer 3 place 0 at 51\n";
    let no_tally = "refused 14 layer 2 place 0 at 41\nrefused 19 layer 3 place 0 at 51\n";
    let enough = "bits 0 tries 0 settled\n5 1\n";
    for (lines, area, tally, told) in [
        (8, 3, 4, enough),
        (7, 3, 4, no_lines),
        (8, 2, 4, no_room),
        (8, 3, 3, no_tally),
    ] {
        let out = printed(&rt, lines, area, tally)?;
        assert!(rt;
            out.as_slice() == told.as_bytes(),
            "{lines} lines, an area of {area}, a tally of {tally}"
        );
    }
    Ok(())
}

#[test]
fn no_room_to_print(rt: HostRuntime) -> io::Result<()> {
    let job = job(rt.alloc())?;
    let mut few = [0u8; 10];
    let mut out = &mut few[..];
    let done = job::run(
        &job,
        &mut [ROUTED; 1],
        &mut [BRIDGE; 8],
        &mut [0u32; 3],
        &mut [0u32; 4],
        &mut out,
    );
    assert!(rt; done.is_err(), "no room");
    assert!(rt; few == *b"bits 0 tri", "as far as there is room");
    Ok(())
}
