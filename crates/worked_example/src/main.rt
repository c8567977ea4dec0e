// A client of the two kinds: it filters frames by a bridge list and packets by a routed list, and says what it does.
#![tactic(auto)]

mod frames;
mod list;
mod packets;
mod samples;
mod say;

use std::io;

fn main(rt: HostRuntime) -> io::Result<()> {
    frames::run(&rt)?;
    packets::run(&rt)
}
