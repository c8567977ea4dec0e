// Running a whole job.
ghost use Rattle.std.specs.Prelude.{◌≡◌};
ghost use Rattle.job.specs.Jobs.{lent};
ghost use Rattle.job.specs.Runs.{RunsThrough, Runs};
ghost use Rattle.job.specs.Facts.{LooksUpLowest, OneAnswer};

use super::fault::Fault;
use super::machine::Machine;
use super::reply::Reply;
use kinds::Line;
use records::{Reader, Refusal};
use std::io;

// The most bytes of a job.
pub const LONGEST_JOB: usize = 65536;

// Carries out all records of a job, and prints their replies.
fn run_through<W: io::Write>(
    job: &[u8],
    routed: &mut [Line<routed::Row>],
    bridge: &mut [Line<bridge::Row>],
    area: &mut [u32],
    tally: &mut [u32],
    out: &mut W,
) -> io::Result<()>
    ensures { RunsThrough (lent routed.old bridge.old area.old tally.old) (lent routed.new bridge.new area.new tally.new) job.now (W.contents out.old) (W.contents out.new) result }
{
    let mut machine = Machine::Unopened;
    for read in Reader::new(job) {
        let (next, reply) = machine.reply(routed, bridge, area, tally, read);
        machine = next;
        reply.print(out)?;
    }
    Ok(())
}

// Runs a job on lent memory: a line is printed for each record that chooses, looks up, or is refused.
#[tactic(auto, using(crate::proofs::Facts::one_answer, crate::proofs::Facts::looks_up_lowest))]
pub fn run<W: io::Write>(
    job: &[u8],
    routed: &mut [Line<routed::Row>],
    bridge: &mut [Line<bridge::Row>],
    area: &mut [u32],
    tally: &mut [u32],
    out: &mut W,
) -> io::Result<()>
    ensures run { Runs (lent routed.old bridge.old area.old tally.old) (lent routed.new bridge.new area.new tally.new) job.now (W.contents out.old) (W.contents out.new) result }
    ensures lowest { LooksUpLowest }
    ensures one_answer { OneAnswer }
{
    if job.len() > LONGEST_JOB {
        let reply = Reply {
            offset: 0,
            answer: Err(Fault::Record(Refusal::CutOff)),
        };
        return reply.print(out);
    }
    run_through(job, routed, bridge, area, tally, out)
}
