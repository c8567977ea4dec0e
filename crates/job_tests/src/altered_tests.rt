// Memory that is altered between two records: a record is answered by what it finds.
use super::jobs::{BRIDGE, LAYING, LOOK_UP, OPENING, ROUTED, putting};
use bridge::Row;
use job::{Answer, Fault, Machine};
use kinds::Line;
use records::{Reader, Record};
use std::alloc::AllocError;

// The first record of some bytes.
fn first(bytes: &[u8]) -> Record<'_> {
    match Reader::new(bytes).next() {
        Some(Ok(record)) => record,
        _ => Record {
            offset: 0,
            kind: 0,
            body: bytes,
        },
    }
}

// Whether a record is refused with 15.
fn other_memory(answer: Result<Answer, Fault>) -> bool {
    match answer {
        Err(Fault::Table(fault)) => fault.refusal == table::Refusal::OtherMemory,
        _ => false,
    }
}

// Whether the look-up finds line 5 at the first try.
fn found(answer: Result<Answer, Fault>) -> bool {
    match answer {
        Ok(Answer::Found(Some(5), 1)) => true,
        _ => false,
    }
}

#[test]
fn altered_memory(rt: HostRuntime) -> Result<(), AllocError> {
    let none: &mut [Line<routed::Row>] = &mut [ROUTED; 1];
    let bridge: &mut [Line<Row>] = &mut [BRIDGE; 9];
    let area = &mut [0u32; 3];
    let tally = &mut [0u32; 4];
    let rule = putting(rt.alloc())?;
    let (job, _) = Machine::Unopened.answer(none, bridge, area, tally, first(&OPENING));
    let (job, _) = job.answer(none, bridge, area, tally, first(&rule));
    let (job, _) = job.answer(none, bridge, area, tally, first(&LAYING));
    let (job, answer) = job.answer(none, bridge, area, tally, first(&LOOK_UP));
    assert!(rt; found(answer), "as it was laid");
    area[2] = 6;
    let (job, answer) = job.answer(none, bridge, area, tally, first(&LOOK_UP));
    assert!(rt; other_memory(answer), "an entry of no filled line");
    area[2] = 5;
    let (job, answer) = job.answer(none, &mut bridge[..7], area, tally, first(&LOOK_UP));
    assert!(rt; other_memory(answer), "too few lines");
    let (job, answer) = job.answer(none, bridge, &mut area[..2], tally, first(&LAYING));
    assert!(rt; other_memory(answer), "another area");
    let (_, answer) = job.answer(none, bridge, area, tally, first(&LOOK_UP));
    assert!(rt; found(answer), "nothing was changed");
    Ok(())
}
