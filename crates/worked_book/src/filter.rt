// A filter: a laid table with the memory that it lies in.
ghost use Rattle.std.specs.Prelude.{◌≡◌};
ghost use Rattle.kinds.specs.Lines.{rules_of};
ghost use Rattle.bridge.specs.Bridge.{bridge};
ghost use Rattle.layout.specs.LookUp.{FindsLowest};
ghost use Rattle.table.specs.Refusals.{at};
ghost use Rattle.table.specs.Calls.{memory, Strikes};
ghost use Rattle.worked_book.specs.Filters.{Stands};

use bridge::{Bridge, Header, Row};
use choice::{Choice, Limits};
use judges::Largest;
use kinds::Line;
use table::{Fault, LaidTable, OpenBook};

// Seven lines and their table, in an area that is always the one that laying the lines gives.
#[derive(Drop)]
pub(crate) struct Filter<const ROOM: usize> {
    table: LaidTable<Bridge>,
    lines: [Line<Row>; 7],
    area: [u32; ROOM],
    tally: [u32; 4],
    ghost stands: { Stands table.shape lines area },
}

// Opens a book over lines, and puts the seven rules into it.
fn open(lines: &mut [Line<Row>; 7]) -> Result<OpenBook<Bridge>, Fault> {
    let book = OpenBook::<Bridge>::open(lines)?;
    for (at, line) in seven_lines::lines().iter().enumerate() {
        if let Some(rule) = kinds::rule_of::<Bridge>(line) {
            book.put(lines, at, &rule)?;
        }
    }
    Ok(book)
}

impl<const ROOM: usize> Filter<ROOM> {
    // The seven lines, with the choice that was made for them.
    pub(crate) fn new() -> Result<(Filter<ROOM>, Choice), Fault> {
        let mut lines = seven_lines::lines();
        let mut area = [0u32; ROOM];
        let mut tally = [0u32; 4];
        let limits = Limits {
            most_bits: 2,
            most_tries: 1000,
        };
        let book = open(&mut lines)?;
        let (measured, choice) = book
            .measure(&lines, ROOM, &Largest, limits, &mut tally)
            .map_err(|refused| refused.fault)?;
        let table = measured
            .lay(&lines, &mut area, &mut tally)
            .map_err(|refused| refused.fault)?;
        let filter = Filter {
            table,
            lines,
            area,
            tally,
        };
        Ok((filter, choice))
    }

    // The lowest line for a header, or none, and how many entries were tried. It is never refused.
    pub(crate) fn answer(&self, header: &Header) -> Result<(Option<usize>, usize), Fault>
        ensures { FindsLowest bridge (rules_of bridge self.now.lines) self.now.table.shape.bits header.now result }
    {
        self.table.look_up(&self.lines, &self.area, header)
    }

    // Strikes a line.
    pub(crate) fn strike(&mut self, line: usize) -> Result<(), Fault>
        ensures strike { Strikes bridge self.old.table.shape (memory self.old.lines self.old.area self.old.tally) (memory self.new.lines self.new.area self.new.tally) (at line) line result }
        ensures table { self.new.table.shape ≡ self.old.table.shape }
    {
        self.table
            .strike(&mut self.lines, &mut self.area, &mut self.tally, line)
    }
}
