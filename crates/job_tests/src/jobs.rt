// A small job, and memory for it.
use bridge::Row;
use kinds::Line;
use std::alloc::{AllocError, Global};

// Opens a bridge book of eight lines.
pub(crate) const OPENING: [u8; 7] = [3, 0, 6, 0, 2, 8, 0];

// Lays the table by the largest block, with two bits at most.
pub(crate) const LAYING: [u8; 10] = [6, 0, 4, 0, 0, 2, 232, 3, 0, 0];

// Looks up a frame of fourteen zeros.
pub(crate) const LOOK_UP: [u8; 18] = [14, 0, 5, 0, 0, 0, 0, 0, 0, 0, 0, 0, 0, 0, 0, 0, 0, 0];

// An empty bridge line.
pub(crate) const BRIDGE: Line<Row> = Line {
    mark: false,
    row: Row::ALL,
};

// An empty routed line.
pub(crate) const ROUTED: Line<routed::Row> = Line {
    mark: false,
    row: routed::Row::ALL,
};

// A rule for every frame, put into line 5.
pub(crate) fn putting(alloc: Global) -> Result<Vec<u8>, AllocError> {
    let mut record = vec![in alloc; 0u8; 34]?;
    record[0] = 30;
    record[2] = 2;
    record[4] = 5;
    Ok(record)
}

// The job: opening, putting, laying, looking up.
pub(crate) fn job(alloc: Global) -> Result<Vec<u8>, AllocError> {
    let mut job = Vec::new(alloc);
    job.extend_from_slice(&OPENING)?;
    job.extend_from_slice(&putting(alloc)?)?;
    job.extend_from_slice(&LAYING)?;
    job.extend_from_slice(&LOOK_UP)?;
    Ok(job)
}
