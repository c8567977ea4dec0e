// A job on standard input, its answers on standard output.
#![tactic(auto)]

use anyhow::{Context, Result};
use job::LONGEST_JOB;
use kinds::Line;
use std::alloc::{AllocError, Global};
use std::io::{self, BufWriter, Read, Write};

// How much memory a job is lent: lines of either kind, an area and a tally.
const LINES: usize = 1024;

const AREA: usize = 8192;

const TALLY: usize = 4096;

// The bytes of the job, or one more than it may have, by which it is seen to be too long.
fn read_job(rt: &(impl Input + Alloc<A = Global>)) -> io::Result<Vec<u8>> {
    let mut job = Vec::new(rt.alloc());
    rt.reader()
        .take(LONGEST_JOB as u64 + 1)
        .read_to_end(&mut job)?;
    Ok(job)
}

// Empty lines.
fn lines<R: Copy>(alloc: Global, row: R) -> Result<Vec<Line<R>>, AllocError> {
    vec![in alloc; Line { mark: false, row }; LINES]
}

fn main(rt: HostRuntime) -> Result<()> {
    let job = read_job(&rt).context("reading the job")?;
    let no_memory = "there is not enough memory";
    let mut routed = lines(rt.alloc(), routed::Row::ALL).context(no_memory)?;
    let mut bridge = lines(rt.alloc(), bridge::Row::ALL).context(no_memory)?;
    let mut area = vec![in rt.alloc(); 0u32; AREA].context(no_memory)?;
    let mut tally = vec![in rt.alloc(); 0u32; TALLY].context(no_memory)?;
    let mut out = BufWriter::new(rt.alloc(), io::writer(&rt)).context(no_memory)?;
    job::run(
        &job,
        &mut routed,
        &mut bridge,
        &mut area,
        &mut tally,
        &mut out,
    )
    .context("printing the answers")?;
    out.flush().context("printing the answers")
}
