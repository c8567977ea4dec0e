// A run: making a table over lent memory, and carrying out a list of calls on it.
ghost use Rattle.std.specs.Prelude.{◌≡◌, length};
ghost use Rattle.table.specs.Refusals.{back};
ghost use Rattle.table.specs.Calls.{memory};
ghost use Rattle.history.specs.Turns.{priced};
ghost use Rattle.history.specs.Runs.{numbers_of, Makes, Runs};
ghost use Rattle.history.specs.Facts.{FactsOfAll};

use super::carrying::carry_out;
use super::turn::{Asked, Turn};
use choice::Choice;
use judges::Judge;
use kinds::{Kind, Line};
use table::{LaidTable, OpenBook, Refused};

// Measures the lines found, and lays their table. What was measured for this very area can be laid.
pub fn make<K: Kind, J: Judge>(
    book: OpenBook<K>,
    lines: &[Line<K::Row>],
    area: &mut [u32],
    tally: &mut [u32],
    asked: &Asked<J>,
) -> Result<(LaidTable<K>, Choice), Refused<OpenBook<K>>>
    ensures { Makes K.meaning book.lines (priced J.cost asked.now) (memory lines.now area.old tally.old) (memory lines.now area.new tally.new) numbers_of (back book) result }
{
    let (measured, choice) = book.measure(lines, area.len(), &asked.judge, asked.limits, tally)?;
    match measured.lay(lines, area, tally) {
        Ok(table) => Ok((table, choice)),
        Err(Refused { state, fault }) => Err(Refused {
            state: state.reopen(),
            fault,
        }),
    }
}

// Makes a table of a book's lines, and carries out turns on it, which get their answers.
pub fn run<K: Kind, J: Judge>(
    book: OpenBook<K>,
    lines: &mut [Line<K::Row>],
    area: &mut [u32],
    tally: &mut [u32],
    asked: &Asked<J>,
    turns: &mut [Turn<K::Rule, K::Header, J>],
) -> Result<(LaidTable<K>, Choice), Refused<OpenBook<K>>>
    ensures run { Runs K.meaning book.lines (priced J.cost asked.now) (memory lines.old area.old tally.old) (memory lines.new area.new tally.new) J.cost turns.old turns.new numbers_of (back book) result }
    ensures facts { FactsOfAll K.meaning }
{
    let (mut table, choice) = make(book, lines, area, tally, asked)?;
    carry_out(&mut table, lines, area, tally, turns);
    Ok((table, choice))
}
