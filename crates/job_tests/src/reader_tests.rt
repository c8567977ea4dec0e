// What a reader gives: records by their offsets, and where the job is cut off.
use super::jobs::job;
use records::Reader;
use std::alloc::AllocError;

#[test]
fn records_in_order(rt: HostRuntime) -> Result<(), AllocError> {
    let mut job = job(rt.alloc())?;
    job.truncate(60);
    let mut offsets = Vec::new(rt.alloc());
    let mut cut = None;
    for read in Reader::new(&job) {
        match read {
            Ok(record) => offsets.push(record.offset)?,
            Err(end) => cut = Some(end.offset),
        }
    }
    assert!(rt; offsets.as_slice() == [0, 7, 41].as_slice(), "offsets");
    assert!(rt; cut == Some(51), "cut off");
    Ok(())
}
