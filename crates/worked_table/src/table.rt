// The table of the seven lines for two bits of a header, and what it answers.
ghost use Rattle.std.specs.Prelude.{◌≡◌, ◌<◌, [], ◌∷◌, None, Ok, slice_set};
ghost use Rattle.kinds.specs.Lines.{rules_of};
ghost use Rattle.bridge.specs.Frames.{header_of};
ghost use Rattle.bridge.specs.Bridge.{bridge};
ghost use Rattle.seven_lines.specs.Seven.{seven};
ghost use Rattle.worked_table.specs.Lists.{AnswersFrom, AnswersAnew};

use super::say;
use bits::Bits;
use blocks::Tally;
use bridge::{Bridge, Fault, Header, Row};
use judges::{Judge, Largest, Squares};
use kinds::{FaultCode, Line};
use layout::Spoilt;
use std::io;

// How many numbers the table for the bits 1 and 2 takes.
const ROOM: usize = 17;

// Lines, and the bits that their table goes by. No `==`: nothing compares books.
#[derive(Drop)]
struct Book<const N: usize> {
    lines: [Line<Row>; N],
    bits: Bits,
}

// Two bits of a header.
fn pair(first: usize, second: usize) -> Bits
    requires rising { first < second }
    requires below { second < 1024 }
    ensures { result ≡ first ∷ second ∷ [] }
{
    Bits::none().with(first).unwrap().with(second).unwrap()
}

impl Book<7> {
    // The seven lines and two bits.
    fn new(first: usize, second: usize) -> Book<7>
        requires rising { first < second }
        requires below { second < 1024 }
        ensures lines { rules_of bridge result.lines ≡ seven }
        ensures bits { result.bits ≡ first ∷ second ∷ [] }
    {
        Book {
            lines: seven_lines::lines(),
            bits: pair(first, second),
        }
    }
}

impl<const N: usize> Book<N> {
    // The line that answers a frame from an area, or none, with the entries tried.
    fn answer(
        &self,
        area: &[u32],
        frame: &[u8],
    ) -> Result<Result<(Option<usize>, usize), Spoilt>, Fault>
        ensures { AnswersFrom bridge self.now.lines self.now.bits area.now (header_of frame.now) result }
    {
        let header = Header::read(frame)?;
        Ok(layout::look_up::<Bridge>(&self.lines, &self.bits, area, &header))
    }

    // The lowest line for a header, or none, with the entries tried: from a table of the lines as they are now, laid for this answer; or the code of what laying refused.
    fn answer_anew(&self, header: &Header) -> Result<(Option<usize>, usize), FaultCode>
        ensures { AnswersAnew bridge self.now.lines self.now.bits 4 17 header.now result }
    {
        let mut area = [0u32; ROOM];
        let mut tally = [0u32; 4];
        layout::lay::<Bridge>(&self.lines, None, &self.bits, &mut area, &mut tally)?;
        Ok(layout::look_up::<Bridge>(&self.lines, &self.bits, &area, header)?)
    }

    // Strikes a line: clears its mark, and leaves its row.
    fn strike(&mut self, line: usize)
        requires { line < N }
        ensures lines { rules_of bridge self.new.lines ≡ slice_set (rules_of bridge self.old.lines) line None }
        ensures bits { self.new.bits ≡ self.old.bits }
    {
        self.lines[line].mark = false;
    }

    // Lays the table into an area, or says why not.
    fn lay(&self, rt: &impl Print, area: &mut [u32]) -> io::Result<()> {
        let mut tally = [0u32; 4];
        match layout::lay::<Bridge>(&self.lines, None, &self.bits, area, &mut tally) {
            Ok(()) => Ok(()),
            Err(refusal) => say::refusal(rt, refusal),
        }
    }

    // Says the starts, and the block of each cell as a frame of that cell has it.
    fn say_table(&self, rt: &impl Print, area: &[u32; ROOM]) -> io::Result<()> {
        print!(rt; "Starts:")?;
        say::numbers(rt, &area[..5])?;
        for first in [0x00u8, 0x20, 0x40, 0x60] {
            print!(rt; "Block of frames beginning {first:02x}:")?;
            match layout::block::<Bridge>(&self.bits, area, &seven_lines::header(first)) {
                Ok(entries) => say::numbers(rt, entries)?,
                Err(spoilt) => say::spoilt(rt, spoilt)?,
            }
        }
        Ok(())
    }

    // Says what a judge tells of the table.
    fn say_cost<J: Judge>(&self, rt: &impl Print, name: &str, judge: &J) -> io::Result<()> {
        let mut tally = [0u32; 4];
        let cost = Tally::new(&mut tally).cost::<Bridge, J>(&self.lines, &self.bits, ROOM, judge);
        match cost {
            Ok(cost) => println!(rt; "  {cost} by {name}"),
            Err(refusal) => say::refusal(rt, refusal),
        }
    }

    fn say_costs(&self, rt: &impl Print) -> io::Result<()> {
        let first = self.bits.at(0);
        let second = self.bits.at(1);
        println!(rt; "Cost for the bits {first} and {second}")?;
        self.say_cost(rt, "the largest block", &Largest)?;
        self.say_cost(rt, "the squares of all blocks", &Squares)
    }

    // Says what the table answers a frame.
    fn say_answer(&self, rt: &impl Print, area: &[u32], first: u8) -> io::Result<()> {
        println!(rt; "Frame beginning {first:02x}")?;
        match self.answer(area, &seven_lines::frame(first)) {
            Ok(Ok((line, tried))) => say::tried(rt, line, tried),
            Ok(Err(spoilt)) => say::spoilt(rt, spoilt),
            Err(fault) => println!(rt; "  refused {}", FaultCode::from(fault)),
        }
    }

    // Strikes a line, lays the table anew, and says what answers a frame then.
    fn say_without(&mut self, rt: &impl Print, line: usize) -> io::Result<()>
        requires { line < N }
    {
        println!(rt; "Line {line} is struck")?;
        self.strike(line);
        println!(rt; "Frame beginning e0")?;
        match self.answer_anew(&seven_lines::header(0xe0)) {
            Ok((line, tried)) => say::tried(rt, line, tried),
            Err(code) => println!(rt; "  refused {code}"),
        }
    }

    // Says that an area that is one number too small is left as it was.
    fn say_small(&self, rt: &impl Print) -> io::Result<()> {
        println!(rt; "An area of 16 numbers, each 7")?;
        let mut area = [7u32; 16];
        self.lay(rt, &mut area)?;
        print!(rt; "Area:")?;
        say::numbers(rt, &area)
    }
}

pub(crate) fn run(rt: &impl Print) -> io::Result<()> {
    println!(rt; "Seven bridge lines, and their table for the bits 1 and 2")?;
    let mut book = Book::new(1, 2);
    let mut area = [0u32; ROOM];
    book.lay(rt, &mut area)?;
    book.say_table(rt, &area)?;
    book.say_costs(rt)?;
    Book::new(0, 1).say_costs(rt)?;
    book.say_small(rt)?;
    println!(rt; "Frames, answered from the table: the line and the entries tried")?;
    for first in [0xe0u8, 0x50, 0xa0] {
        book.say_answer(rt, &area, first)?;
    }
    book.say_without(rt, 4)?;
    book.say_without(rt, 6)
}
