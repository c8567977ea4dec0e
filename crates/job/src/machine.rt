// The machine of a job: it matches what is open with what a record asks, and what matches nothing is out of order.
ghost use Rattle.std.specs.Prelude.{◌≡◌};
ghost use Rattle.job.specs.Jobs.{lent, Steps, AnswersRecord, Replies};

use super::answer::Answer;
use super::fault::Fault;
use super::filter::Filter;
use super::reply::Reply;
use bridge::Bridge;
use kinds::Line;
use records::{CutOff, Record, Refusal, Request};
use routed::Routed;

// What is open as a job goes on.
#[derive(Drop)]
pub enum Machine {
    Unopened,
    Routed(Filter<Routed>),
    Bridge(Filter<Bridge>),
}

impl Machine {
    // Carries out a request.
    fn step(
        self,
        routed: &mut [Line<routed::Row>],
        bridge: &mut [Line<bridge::Row>],
        area: &mut [u32],
        tally: &mut [u32],
        request: Request<'_>,
    ) -> (Machine, Result<Answer, Fault>)
        ensures { Steps (lent routed.old bridge.old area.old tally.old) (lent routed.new bridge.new area.new tally.new) self request.entry result.0 result.1 }
    {
        match (self, request) {
            (Machine::Unopened, Request::OpenRouted { lines: count }) => {
                let opened = Filter::open(routed, count);
                match opened {
                    Ok(filter) => (Machine::Routed(filter), Ok(Answer::Done)),
                    Err(fault) => (Machine::Unopened, Err(Fault::Table(fault))),
                }
            }
            (Machine::Unopened, Request::OpenBridge { lines: count }) => {
                let opened = Filter::open(bridge, count);
                match opened {
                    Ok(filter) => (Machine::Bridge(filter), Ok(Answer::Done)),
                    Err(fault) => (Machine::Unopened, Err(Fault::Table(fault))),
                }
            }
            (Machine::Routed(filter), request) => {
                let (filter, answer) = filter.serve(routed, area, tally, request);
                (Machine::Routed(filter), answer)
            }
            (Machine::Bridge(filter), request) => {
                let (filter, answer) = filter.serve(bridge, area, tally, request);
                (Machine::Bridge(filter), answer)
            }
            (Machine::Unopened, _) => (Machine::Unopened, Err(Fault::OutOfOrder)),
        }
    }

    // Answers a record, and gives the machine as the job goes on.
    pub fn answer(
        self,
        routed: &mut [Line<routed::Row>],
        bridge: &mut [Line<bridge::Row>],
        area: &mut [u32],
        tally: &mut [u32],
        given: Record<'_>,
    ) -> (Machine, Result<Answer, Fault>)
        ensures { AnswersRecord (lent routed.old bridge.old area.old tally.old) (lent routed.new bridge.new area.new tally.new) self given.entry result.0 result.1 }
    {
        match Request::try_from(given) {
            Ok(request) => self.step(routed, bridge, area, tally, request),
            Err(refusal) => (self, Err(Fault::Record(refusal))),
        }
    }

    // Replies to what a reader gives.
    pub(crate) fn reply(
        self,
        routed: &mut [Line<routed::Row>],
        bridge: &mut [Line<bridge::Row>],
        area: &mut [u32],
        tally: &mut [u32],
        read: Result<Record<'_>, CutOff>,
    ) -> (Machine, Reply)
        ensures { Replies (lent routed.old bridge.old area.old tally.old) (lent routed.new bridge.new area.new tally.new) self read.entry result.0 result.1 }
    {
        match read {
            Ok(given) => {
                let offset = given.offset;
                let (machine, answer) = self.answer(routed, bridge, area, tally, given);
                (machine, Reply { offset, answer })
            }
            Err(cut) => {
                let answer = Err(Fault::Record(Refusal::CutOff));
                let offset = cut.offset;
                (self, Reply { offset, answer })
            }
        }
    }
}
