// Walking the records of a job.
ghost use Rattle.std.specs.Prelude.{◌≡◌, ◌+◌, ◌-◌, ◌≤◌, length, IfOk, IfErr};
ghost use Rattle.std.specs.Iterator.{at_most};
ghost use Rattle.records.specs.Records.{Is, IsCutOff, Reads, PartsTile};

use super::record::{CutOff, Record};

// A job, and where its next record begins.
#[derive(Drop)]
pub struct Reader<'a> {
    job: &'a [u8],
    at: usize,
    ghost inside: { at ≤ length job.now },
}

impl<'a> Reader<'a> {
    ghost use Rattle.records.specs.Readers.{job_of, place_of};

    // A reader of a job's first record.
    #[tactic(auto, using(crate::proofs::Tiles::parts_tile))]
    pub fn new(job: &'a [u8]) -> Reader<'a>
        ensures job { job_of result ≡ job.now }
        ensures at { place_of result ≡ 0 }
        ensures tiles { PartsTile }
    {
        Reader { job, at: 0 }
    }
}

// The records in order, without copying them; a record that is cut off is the last.
impl<'a> Iterator for Reader<'a> {
    ghost use Rattle.records.specs.Readers.{job_of, place_of};

    type Item = Result<Record<'a>, CutOff>;

    ghost next_gives = { λ found item left. (job_of left ≡ job_of found) × Reads (job_of found) (place_of found) item (place_of left) };

    ghost remaining = { λ reader. at_most (length (job_of reader) - place_of reader) };

    fn next(&mut self) -> Option<Result<Record<'a>, CutOff>> {
        let job = self.job;
        let at = self.at;
        if at >= job.len() {
            return None;
        }
        let read = record_at(job, at);
        self.at = match &read {
            Ok(record) => at + 4 + record.body.len(),
            Err(_) => job.len(),
        };
        Some(read)
    }
}

// The record that begins at a place.
fn record_at(job: &[u8], offset: usize) -> Result<Record<'_>, CutOff>
    requires { offset ≤ length job.now }
    ensures record { IfOk result (λ this. Is job.now offset this (offset + 4 + length this.body.now)) }
    ensures cut { IfErr result (IsCutOff job.now offset) }
{
    let cut = CutOff { offset };
    let [a, b, c, d, rest @ ..] = &job[offset..] else {
        return Err(cut);
    };
    let length = u16::from_le_bytes([*a, *b]);
    let body = rest.get(..usize::from(length)).ok_or(cut)?;
    Ok(Record {
        offset,
        kind: u16::from_le_bytes([*c, *d]),
        body,
    })
}
