// A client of the choice: it chooses the bits for the table of the seven bridge lines, by each judge, with too few tries, and for small areas.
#![tactic(auto)]

ghost use Rattle.kinds.specs.Checks.{MadeOf};
ghost use Rattle.kinds.specs.Lines.{rules_of};
ghost use Rattle.bridge.specs.Bridge.{bridge};
ghost use Rattle.choice.specs.Checks.{allowed};
ghost use Rattle.choice.specs.Choice.{IsChoice};

use bridge::{Bridge, Row};
use choice::{Choice, Limits, Refusal};
use judges::{Judge, Largest, Squares};
use kinds::{FaultCode, Line};
use std::io;

// More tries than any of these choices uses.
const MANY: u32 = 1000;

// The length of an area that holds each table of two bits.
const LARGE: usize = 64;

// The choice of two bits at most by a judge, or why there is none.
fn two_bits<J: Judge>(
    lines: &[Line<Row>],
    judge: &J,
    room: usize,
    most_tries: u32,
) -> Result<Choice, Refusal>
    ensures { MadeOf (λ _. IsChoice bridge (rules_of bridge lines.now) room (J.cost judge.now) (record { most_bits = 2; most_tries = most_tries })) (allowed bridge lines.now (record { most_bits = 2; most_tries = most_tries }) 4 room) result }
{
    let limits = Limits {
        most_bits: 2,
        most_tries,
    };
    choice::choose::<Bridge, J>(lines, room, judge, limits, &mut [0u32; 4])
}

// Says a choice on a line of its own.
fn say(rt: &impl Print, choice: &Choice) -> io::Result<()> {
    print!(rt; "  bits")?;
    if choice.bits.len() == 0 {
        print!(rt; " none")?;
    }
    for bit in &choice.bits {
        print!(rt; " {bit}")?;
    }
    let tries = choice.tries;
    let outcome = choice.outcome;
    println!(rt; ", tries {tries}, {outcome}")
}

// Says what two bits at most are chosen for the seven lines, or why none are.
fn say_seven<J: Judge>(rt: &impl Print, judge: &J, room: usize, most_tries: u32) -> io::Result<()> {
    match two_bits(&seven_lines::lines(), judge, room, most_tries) {
        Ok(choice) => say(rt, &choice),
        Err(refusal) => println!(rt; "  refused {}: {refusal}", FaultCode::from(refusal)),
    }
}

fn main(rt: HostRuntime) -> io::Result<()> {
    println!(&rt; "Two bits at most for the seven bridge lines, by the largest block")?;
    say_seven(&rt, &Largest, LARGE, MANY)?;
    println!(&rt; "By the squares of all blocks")?;
    say_seven(&rt, &Squares, LARGE, MANY)?;
    println!(&rt; "By the squares, with one try less than that")?;
    say_seven(&rt, &Squares, LARGE, 219)?;
    for room in [16, 9, 8] {
        println!(&rt; "By the largest block, in an area of {room}")?;
        say_seven(&rt, &Largest, room, MANY)?;
    }
    Ok(())
}
