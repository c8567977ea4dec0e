// Times on standard error, and what was found on standard output: a rule list from standard input is put into a book, which is measured, laid, looked up in and changed.
// `bench/run` compares both with a plain Rust program, which does the same in the same order.
#![tactic(auto)]

mod checksum;
mod given;
mod phases;
mod repeats;
mod stopwatch;

use anyhow::{Context, Result};
use given::Given;
use std::alloc::Global;
use std::io::{self, Read};

// The bytes of standard input.
fn read_all(rt: &(impl Input + Alloc<A = Global>)) -> io::Result<Vec<u8>> {
    let mut bytes = Vec::new(rt.alloc());
    rt.reader().read_to_end(&mut bytes)?;
    Ok(bytes)
}

fn main(rt: HostRuntime) -> Result<()> {
    let bytes = read_all(&rt).context("reading the list")?;
    let given = Given::read(&bytes, rt.alloc())
        .context("there is not enough memory")?
        .context("the file holds no list")?;
    phases::run(&rt, &given)
}
