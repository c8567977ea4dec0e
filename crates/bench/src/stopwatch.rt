// The time of a phase, by the clock that never goes back.
use std::io;
use std::io::Eprint;
use std::time::{Clock, Instant};

// A phase that has begun.
pub(crate) struct Stopwatch {
    start: Instant,
}

impl Stopwatch {
    pub(crate) fn start(rt: &impl Clock) -> io::Result<Stopwatch> {
        Ok(Stopwatch {
            start: Instant::now(rt)?,
        })
    }

    // Tells a phase's name, its operations and its nanoseconds on standard error.
    pub(crate) fn stop<R: Clock + Eprint>(
        self,
        rt: &R,
        name: &str,
        operations: usize,
    ) -> io::Result<()> {
        let Stopwatch { start } = self;
        let nanoseconds = start.elapsed(rt)?.as_nanos();
        eprintln!(rt; "{name} {operations} {nanoseconds}")
    }
}
