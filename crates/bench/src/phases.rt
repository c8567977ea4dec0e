// The phases in their order. Each is timed apart from what it prints.
use super::checksum::{Answers, Checksum};
use super::given::Given;
use super::repeats::{self, ROUNDS};
use super::stopwatch::Stopwatch;
use anyhow::{Context, Error, Result, anyhow};
use bits::Bits;
use choice::{Choice, Limits};
use judges::Squares;
use kinds::{FaultCode, Line};
use routed::{Header, Routed, Row, Rule};
use std::alloc::{AllocError, Global};
use std::io;
use std::io::Eprint;
use std::time::Clock;
use table::{Fault, LaidTable, MeasuredBook, OpenBook};

// How many numbers the tally has: one for each cell of twelve bits.
const TALLY: usize = 4096;

// What a book is lent.
#[derive(Drop)]
struct Memory {
    lines: Vec<Line<Row>>,
    area: Vec<u32>,
    tally: Vec<u32>,
}

impl Memory {
    fn new(lines: usize, area: usize, alloc: Global) -> Result<Memory, AllocError> {
        let empty = Line {
            mark: false,
            row: Row::ALL,
        };
        Ok(Memory {
            lines: vec![in alloc; empty; lines]?,
            area: vec![in alloc; 0u32; area]?,
            tally: vec![in alloc; 0u32; TALLY]?,
        })
    }
}

// A fault as an error.
fn refused(fault: impl Into<FaultCode>) -> Error {
    let code: FaultCode = fault.into();
    anyhow!("refused {code}")
}

// The rules of some rows.
fn rules_of(rows: &[Row], alloc: Global) -> Result<Vec<Rule>> {
    let mut rules = Vec::new(alloc);
    for row in rows {
        let rule = Rule::try_from(*row).map_err(|fault| refused(fault))?;
        rules.push(rule)?;
    }
    Ok(rules)
}

// Opens a book of some rules, one in each line.
fn open(lines: &mut [Line<Row>], rules: &[Rule]) -> Result<OpenBook<Routed>, Fault> {
    let book = OpenBook::<Routed>::open(lines)?;
    for (line, rule) in rules.iter().enumerate() {
        book.put(lines, line, rule)?;
    }
    Ok(book)
}

// Says the chosen bits, and how the choice ended.
fn say_choice(rt: &impl Print, choice: &Choice) -> io::Result<()> {
    print!(rt; "bits")?;
    for bit in &choice.bits {
        print!(rt; " {bit}")?;
    }
    let tries = choice.tries;
    let outcome = choice.outcome;
    println!(rt; "\ntries {tries} {outcome}")
}

// Chooses the bits.
fn choose<R: Clock + Print + Eprint>(
    rt: &R,
    book: OpenBook<Routed>,
    memory: &mut Memory,
    limits: Limits,
) -> Result<(MeasuredBook<Routed>, Choice)> {
    let watch = Stopwatch::start(rt)?;
    let room = memory.area.len();
    let made = book.measure(&memory.lines, room, &Squares, limits, &mut memory.tally);
    watch.stop(rt, "choose", 1)?;
    let (measured, choice) = made.map_err(|refusal| refused(refusal.fault))?;
    say_choice(rt, &choice)?;
    Ok((measured, choice))
}

// Lays the table so many times.
fn lay_again(memory: &mut Memory, bits: &Bits, times: usize) -> Result<(), blocks::Refusal> {
    for _ in 0..times {
        layout::lay::<Routed>(
            &memory.lines,
            None,
            bits,
            &mut memory.area,
            &mut memory.tally,
        )?;
    }
    Ok(())
}

// Lays the table: a measured book does so once, and so `layout::lay`, which it calls, is what is timed.
fn lay<R: Clock + Print + Eprint>(
    rt: &R,
    measured: MeasuredBook<Routed>,
    memory: &mut Memory,
    bits: &Bits,
) -> Result<LaidTable<Routed>> {
    let times = repeats::lays(memory.lines.len());
    let watch = Stopwatch::start(rt)?;
    let laid = lay_again(memory, bits, times);
    watch.stop(rt, "lay", times)?;
    laid.map_err(|refusal| refused(refusal))?;
    let mut sum = Checksum::new();
    sum.feed_all(&memory.area);
    println!(rt; "area {}", sum.value())?;
    measured
        .lay(&memory.lines, &mut memory.area, &mut memory.tally)
        .map_err(|refusal| refused(refusal.fault))
}

// Looks all headers up.
fn look_up_all(
    table: &LaidTable<Routed>,
    memory: &Memory,
    headers: &[Header],
    answers: &mut Answers,
) -> Result<(), Fault> {
    for header in headers {
        answers.feed(table.look_up(&memory.lines, &memory.area, header)?);
    }
    Ok(())
}

// The same, once more each round.
fn look_up_again(
    table: &LaidTable<Routed>,
    memory: &Memory,
    headers: &[Header],
) -> Result<Answers, Fault> {
    let mut answers = Answers::new();
    for _ in 0..ROUNDS {
        look_up_all(table, memory, headers, &mut answers)?;
    }
    Ok(answers)
}

// Looks the headers up in the table.
fn look_up<R: Clock + Print + Eprint>(
    rt: &R,
    table: &LaidTable<Routed>,
    memory: &Memory,
    headers: &[Header],
) -> Result<()> {
    let watch = Stopwatch::start(rt)?;
    let found = look_up_again(table, memory, headers);
    watch.stop(rt, "look_up", ROUNDS.saturating_mul(headers.len()))?;
    let answers = found.map_err(|fault| refused(fault))?;
    println!(rt; "look_up {} tried {}", answers.sum.value(), answers.tried)?;
    Ok(())
}

// Seeks headers in all lines, one by one.
fn search_all(lines: &[Line<Row>], headers: &[Header]) -> Answers {
    let mut answers = Answers::new();
    for header in headers {
        answers.feed(kinds::first_match::<Routed>(lines, header));
    }
    answers
}

// Seeks the headers in the lines without a table.
fn search<R: Clock + Print + Eprint>(
    rt: &R,
    lines: &[Line<Row>],
    headers: &[Header],
) -> Result<()> {
    let times = repeats::searches(lines.len(), headers.len());
    let sought = headers.get(..times).unwrap_or(headers);
    let watch = Stopwatch::start(rt)?;
    let answers = search_all(lines, sought);
    watch.stop(rt, "linear", times)?;
    println!(rt; "linear {} compared {}", answers.sum.value(), answers.tried)?;
    Ok(())
}

// Puts a rule into a line on the table: the number of the refusal, or 0.
fn put_one(table: &LaidTable<Routed>, memory: &mut Memory, line: usize, rule: &Rule) -> u16 {
    match table.put(
        &mut memory.lines,
        &mut memory.area,
        &mut memory.tally,
        line,
        rule,
    ) {
        Ok(()) => 0,
        Err(fault) => FaultCode::from(fault).number,
    }
}

// Puts rules of the list into lines, so many times.
fn put_again(
    table: &LaidTable<Routed>,
    memory: &mut Memory,
    rules: &[Rule],
    times: usize,
) -> Checksum {
    let mut sum = Checksum::new();
    for put in 0..times {
        let line = repeats::strided(0, 104_729, put, rules.len());
        let rule = repeats::strided(1, 7_919, put, rules.len());
        if let Some(rule) = rules.get(rule) {
            sum.feed(u64::from(put_one(table, memory, line, rule)));
        }
    }
    sum
}

// Changes lines on the table.
fn put<R: Clock + Print + Eprint>(
    rt: &R,
    table: &LaidTable<Routed>,
    memory: &mut Memory,
    rules: &[Rule],
) -> Result<()> {
    let times = repeats::puts(rules.len());
    let watch = Stopwatch::start(rt)?;
    let mut sum = put_again(table, memory, rules, times);
    watch.stop(rt, "put", times)?;
    sum.feed_all(&memory.area);
    println!(rt; "put {}", sum.value())?;
    Ok(())
}

// All phases.
pub(crate) fn run<R: Clock + Print + Eprint + AllocGlobal>(rt: &R, given: &Given) -> Result<()> {
    let rules = rules_of(&given.rows, rt.alloc())?;
    let mut memory = Memory::new(rules.len(), given.area, rt.alloc()).context(
        "there is not enough memory",
    )?;
    let book = open(&mut memory.lines, &rules).map_err(|fault| refused(fault))?;
    let (measured, choice) = choose(rt, book, &mut memory, given.limits)?;
    let table = lay(rt, measured, &mut memory, &choice.bits)?;
    look_up(rt, &table, &memory, &given.headers)?;
    search(rt, &memory.lines, &given.headers)?;
    put(rt, &table, &mut memory, &rules)
}
