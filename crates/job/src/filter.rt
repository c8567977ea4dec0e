// A book of a job, and what a request does to it. Written once for every kind.
ghost use Rattle.std.specs.Prelude.{◌≡◌, take, drop};
ghost use Rattle.kinds.specs.Checks.{◌and_then◌};
ghost use Rattle.table.specs.Calls.{memory, looks_up};
ghost use Rattle.job.specs.Books.{lines_of, asking, put_of, found_told, IsOpened, Acts, Carries, Takes};
ghost use Rattle.history.specs.Turns.{priced};
ghost use Rattle.history.specs.declared.turn.Call.TheVariants as call;
ghost use Rattle.records.specs.Judges.{named_cost};

use super::answer::Answer;
use super::fault::Fault;
use super::recorded::Recorded;
use choice::Limits;
use history::Asked;
use kinds::Line;
use records::{NamedJudge, Request};
use table::{LaidTable, OpenBook, Refusal, Refused};

// More than a choice may be asked, which stands for a judge that there is not.
const TOO_MUCH: Limits = Limits {
    most_bits: 255,
    most_tries: 0,
};

// The states that a book of the machine has; measuring it and laying it are one step here.
#[derive(Drop)]
pub enum Filter<K> {
    Open(OpenBook<K>),
    Laid(LaidTable<K>),
}

impl<K: Recorded> Filter<K>
where
    K::Header: Drop,
{
    // Puts the rule of a row into a line.
    fn put(
        &self,
        lines: &mut [Line<K::Row>],
        area: &mut [u32],
        tally: &mut [u32],
        line: usize,
        row: K::Row,
    ) -> Result<Answer, Fault>
        ensures { Carries K.meaning (memory lines.old area.old tally.old) (memory lines.new area.new tally.new) self.now (put_of K.reading line row) self.now result }
    {
        let rule = K::read_rule(row)?;
        match self {
            Filter::Open(book) => book.put(lines, line, &rule)?,
            Filter::Laid(table) => table.put(lines, area, tally, line, &rule)?,
        }
        Ok(Answer::Done)
    }

    // Strikes a line.
    fn strike(
        &self,
        lines: &mut [Line<K::Row>],
        area: &mut [u32],
        tally: &mut [u32],
        line: usize,
    ) -> Result<Answer, Fault>
        ensures { Acts K.meaning (memory lines.old area.old tally.old) (memory lines.new area.new tally.new) self.now (call.Strike line) self.now result }
    {
        match self {
            Filter::Open(book) => book.strike(lines, line)?,
            Filter::Laid(table) => table.strike(lines, area, tally, line)?,
        }
        Ok(Answer::Done)
    }

    // Chooses bits, and lays the table for them.
    fn choose(
        self,
        lines: &[Line<K::Row>],
        area: &mut [u32],
        tally: &mut [u32],
        asked: &Asked<NamedJudge>,
    ) -> (Filter<K>, Result<Answer, Fault>)
        ensures { Acts K.meaning (memory lines.now area.old tally.old) (memory lines.now area.new tally.new) self (call.Choose (priced named_cost asked.now)) result.0 result.1 }
    {
        match self {
            Filter::Open(book) => {
                match history::make(book, lines, area, tally, asked) {
                    Ok((table, choice)) => (Filter::Laid(table), Ok(Answer::Chosen(choice))),
                    Err(Refused { state, fault }) => (
                        Filter::Open(state),
                        Err(Fault::Table(fault)),
                    ),
                }
            }
            Filter::Laid(mut table) => {
                match table.choose(lines, area, &asked.judge, asked.limits, tally) {
                    Ok(choice) => (Filter::Laid(table), Ok(Answer::Chosen(choice))),
                    Err(fault) => (Filter::Laid(table), Err(Fault::Table(fault))),
                }
            }
        }
    }

    // How many lines the book has.
    fn lines(&self) -> usize
        ensures { result ≡ lines_of self.now }
    {
        match self {
            Filter::Open(book) => book.lines(),
            Filter::Laid(table) => table.lines(),
        }
    }

    // Opens a book over the first of the lines that are lent.
    pub(crate) fn open(lines: &mut [Line<K::Row>], count: usize) -> Result<Filter<K>, table::Fault>
        ensures { IsOpened count lines.old lines.new result }
    {
        if count > lines.len() {
            return Err(table::Fault::from(Refusal::LineCount));
        }
        Ok(Filter::Open(OpenBook::open(&mut lines[..count])?))
    }

    // Carries out a request on the lines that are the book's, of those that are lent.
    pub(crate) fn serve(
        self,
        lines: &mut [Line<K::Row>],
        area: &mut [u32],
        tally: &mut [u32],
        request: Request<'_>,
    ) -> (Filter<K>, Result<Answer, Fault>)
        ensures answer { Takes K.meaning (memory (take (lines_of self) lines.old) area.old tally.old) (memory (take (lines_of self) lines.new) area.new tally.new) K.reading self request.entry result.0 result.1 }
        ensures others { drop (lines_of self) lines.new ≡ drop (lines_of self) lines.old }
    {
        let own = self.lines().min(lines.len());
        self.step(&mut lines[..own], area, tally, request)
    }

    // Carries out a request.
    fn step(
        self,
        lines: &mut [Line<K::Row>],
        area: &mut [u32],
        tally: &mut [u32],
        request: Request<'_>,
    ) -> (Filter<K>, Result<Answer, Fault>)
        ensures { Takes K.meaning (memory lines.old area.old tally.old) (memory lines.new area.new tally.new) K.reading self request.entry result.0 result.1 }
    {
        match (self, request) {
            (filter, Request::Put { line, row }) => {
                let answer = match K::row_in(row) {
                    Some(row) => filter.put(lines, area, tally, line, row),
                    None => Err(Fault::OutOfOrder),
                };
                (filter, answer)
            }
            (filter, Request::Strike { line }) => {
                let answer = filter.strike(lines, area, tally, line);
                (filter, answer)
            }
            (filter, Request::Choose { judge, limits }) => {
                filter.choose(lines, area, tally, &asking(judge, limits))
            }
            (Filter::Laid(table), Request::LookUp { packet }) => {
                let answer = look_up(&table, lines, area, packet);
                (Filter::Laid(table), answer)
            }
            (filter, _) => (filter, Err(Fault::OutOfOrder)),
        }
    }
}

// The line that answers a packet or a frame.
fn look_up<K: Recorded>(
    table: &LaidTable<K>,
    lines: &[Line<K::Row>],
    area: &[u32],
    packet: &[u8],
) -> Result<Answer, Fault>
where
    K::Header: Drop,
    ensures { result ≡ (K.reading.header_of packet.now and_then λ header. found_told (looks_up K.meaning table.now.shape header lines.now area.now)) }
{
    let header = K::read_header(packet)?;
    let (line, tried) = table.look_up(lines, area, &header)?;
    Ok(Answer::Found(line, tried))
}

// What is asked of a choice, by a judge if there is one.
fn asking(judge: Option<NamedJudge>, limits: Limits) -> Asked<NamedJudge>
    ensures { result ≡ asking judge limits }
{
    match judge {
        Some(judge) => Asked { judge, limits },
        // It is refused where too many bits are.
        None => Asked {
            judge: NamedJudge::Largest,
            limits: TOO_MUCH,
        },
    }
}
