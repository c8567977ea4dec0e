// A client of the tables: it lays the table of the seven bridge lines for two bits, shows it, and asks it for frames.
#![tactic(auto)]

mod say;
mod table;

use std::io;

fn main(rt: HostRuntime) -> io::Result<()> {
    table::run(&rt)
}
