// A client of books and tables: it puts the seven bridge lines into a book, lays their table, asks it, and strikes lines on it.
#![tactic(auto)]

mod filter;

use choice::Choice;
use filter::Filter;
use kinds::FaultCode;
use std::io;
use table::Fault;

// Says a choice on a line of its own.
fn say_choice(rt: &impl Print, choice: &Choice) -> io::Result<()> {
    print!(rt; "  bits")?;
    if choice.bits.len() == 0 {
        print!(rt; " none")?;
    }
    for bit in &choice.bits {
        print!(rt; " {bit}")?;
    }
    let tries = choice.tries;
    let outcome = choice.outcome;
    println!(rt; ", tries {tries}, {outcome}")
}

// Says a fault, and why.
fn say_fault(rt: &impl Print, fault: Fault) -> io::Result<()> {
    let refusal = fault.refusal;
    println!(rt; "  refused {}: {refusal}", FaultCode::from(fault))
}

// Says the line that answers a frame, or none, and how many entries were tried.
fn say_answer(rt: &impl Print, filter: &Filter<17>, first: u8) -> io::Result<()> {
    print!(rt; "  frame beginning {first:02x}: ")?;
    match filter.answer(&seven_lines::header(first)) {
        Ok((Some(line), tried)) => println!(rt; "{line} {tried}"),
        Ok((None, tried)) => println!(rt; "none {tried}"),
        Err(fault) => say_fault(rt, fault),
    }
}

// Strikes a line on the table, and says what answers a frame then.
fn say_without(rt: &impl Print, filter: &mut Filter<17>, line: usize) -> io::Result<()> {
    println!(rt; "Striking line {line} on the table")?;
    match filter.strike(line) {
        Ok(()) => say_answer(rt, filter, 0xe0),
        Err(fault) => say_fault(rt, fault),
    }
}

// What the table answers, before and after strikes.
fn say_filter(rt: &impl Print, filter: &mut Filter<17>) -> io::Result<()> {
    println!(rt; "Frames, answered from the table: the line and the entries tried")?;
    for first in [0xe0, 0x50, 0xa0] {
        say_answer(rt, filter, first)?;
    }
    for line in [4, 6, 6, 7] {
        say_without(rt, filter, line)?;
    }
    Ok(())
}

// Says what was chosen for the seven lines in an area, or why nothing was.
fn say_small(rt: &impl Print, room: usize, chosen: Result<Choice, Fault>) -> io::Result<()> {
    println!(rt; "The same lines and an area of {room}")?;
    match chosen {
        Ok(choice) => say_choice(rt, &choice),
        Err(fault) => say_fault(rt, fault),
    }
}

fn main(rt: HostRuntime) -> io::Result<()> {
    println!(&rt; "Seven bridge lines, two bits at most by the largest block, and an area of 17")?;
    match Filter::<17>::new() {
        Ok((mut filter, choice)) => {
            say_choice(&rt, &choice)?;
            say_filter(&rt, &mut filter)?;
        }
        Err(fault) => say_fault(&rt, fault)?,
    }
    say_small(&rt, 16, Filter::<16>::new().map(|(_, choice)| choice))?;
    say_small(&rt, 9, Filter::<9>::new().map(|(_, choice)| choice))?;
    say_small(&rt, 8, Filter::<8>::new().map(|(_, choice)| choice))
}
