// What the client prints of an answer, and of some numbers.
use blocks::Refusal;
use kinds::FaultCode;
use layout::Spoilt;
use std::io;

// The answer of a table: the line or `none`, and the entries tried. It prints a whole line by cases; a type with a `Display` would say no more.
pub(crate) fn tried(rt: &impl Print, line: Option<usize>, tried: usize) -> io::Result<()> {
    match line {
        Some(line) => println!(rt; "{line} {tried}"),
        None => println!(rt; "none {tried}"),
    }
}

// Why there is no table or no cost, and what is wrong with one: a whole line of the program, with the fault's code and in words.
pub(crate) fn refusal(rt: &impl Print, refusal: Refusal) -> io::Result<()> {
    println!(rt; "  refused {}: {refusal}", FaultCode::from(refusal))
}

pub(crate) fn spoilt(rt: &impl Print, spoilt: Spoilt) -> io::Result<()> {
    println!(rt; "  refused {}: {spoilt}", FaultCode::from(spoilt))
}

// Numbers to the end of the line.
pub(crate) fn numbers(rt: &impl Print, numbers: &[u32]) -> io::Result<()> {
    for number in numbers {
        print!(rt; " {number}")?;
    }
    println!(rt)
}
