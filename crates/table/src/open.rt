// An open book: its lines may change.
ghost use Rattle.std.specs.Prelude.{◌≡◌, ◌≤◌, [], ◌++◌, length, map};
ghost use Rattle.table.specs.Lines.{emptied};

use super::change::{filling, striking};
use super::layers::choose;
use super::measured::MeasuredBook;
use super::refusal::{Fault, Refusal, Refused};
use super::shape::Shape;
use choice::{Choice, Limits};
use judges::Judge;
use kinds::{Kind, Line};
use std::marker::PhantomData;

// The most lines of a book, which are the most that a table is made of.
const MOST_LINES: usize = 16384;

// How many lines it has, tied to their kind.
#[derive(Drop)]
pub struct OpenBook<K> {
    pub(crate) lines: usize,
    pub(crate) kind: PhantomData<K>,
    ghost few: { lines ≤ 16384 },
}

// Clears all marks.
fn empty<R>(lines: &mut [Line<R>])
    ensures { lines.new ≡ map emptied lines.old }
{
    for line in lines.iter_mut() {
        line.mark = false;
    }
}

impl<K: Kind> OpenBook<K> {
    ghost use Rattle.kinds.specs.Lines.{rules_of};
    ghost use Rattle.kinds.specs.Checks.{MadeOf};
    ghost use Rattle.choice.specs.Choice.{IsChoice};
    ghost use Rattle.table.specs.Refusals.{at, back};
    ghost use Rattle.table.specs.Checks.{verdict, lines_checks, choice_checks};
    ghost use Rattle.table.specs.Calls.{memory, tally_left, Opens, PutsInBook, StrikesInBook, Measures};

    // Opens a book over lines, which become empty.
    pub fn open(lines: &mut [Line<K::Row>]) -> Result<OpenBook<K>, Fault>
        ensures { Opens (memory lines.old [] []) (memory lines.new [] []) result }
    {
        if lines.is_empty() || lines.len() > MOST_LINES {
            return Err(Refusal::LineCount.at(0));
        }
        empty(lines);
        Ok(OpenBook {
            lines: lines.len(),
            kind: PhantomData,
        })
    }

    // How many lines the book has.
    pub fn lines(&self) -> usize
        ensures { result ≡ self.now.lines }
    {
        self.lines
    }

    // The book of a table's lines.
    pub(crate) fn again(shape: Shape, kind: PhantomData<K>) -> OpenBook<K>
        ensures { result.lines ≡ shape.lines }
    {
        OpenBook {
            lines: shape.lines,
            kind,
        }
    }

    // Whether so many lines are the book's.
    fn check(&self, lines: usize) -> Result<(), Refusal>
        ensures { result ≡ verdict (lines_checks self.now.lines lines) }
    {
        if lines != self.lines {
            return Err(Refusal::OtherMemory);
        }
        Ok(())
    }

    // Puts a rule into a line, empty or filled.
    pub fn put(&self, lines: &mut [Line<K::Row>], line: usize, rule: &K::Rule) -> Result<(), Fault>
        ensures { PutsInBook K.meaning self.now.lines (memory lines.old [] []) (memory lines.new [] []) (at line) line rule.now result }
    {
        self.try_put(lines, line, rule)
            .map_err(|refusal| refusal.at(line))
    }

    // The same, told without its line.
    #[tactic(auto, using(crate::proofs::Books::put_done))]
    fn try_put(
        &self,
        lines: &mut [Line<K::Row>],
        line: usize,
        rule: &K::Rule,
    ) -> Result<(), Refusal>
        ensures { PutsInBook K.meaning self.now.lines (memory lines.old [] []) (memory lines.new [] []) (λ refusal. refusal) line rule.now result }
    {
        self.check(lines.len())?;
        let change = filling::<K>(lines, line, rule)?;
        lines[change.place] = change.line;
        Ok(())
    }

    // Strikes a filled line.
    pub fn strike(&self, lines: &mut [Line<K::Row>], line: usize) -> Result<(), Fault>
        ensures { StrikesInBook K.meaning self.now.lines (memory lines.old [] []) (memory lines.new [] []) (at line) line result }
    {
        self.try_strike(lines, line)
            .map_err(|refusal| refusal.at(line))
    }

    // The same, told without its line.
    #[tactic(auto, using(crate::proofs::Books::strike_done))]
    fn try_strike(&self, lines: &mut [Line<K::Row>], line: usize) -> Result<(), Refusal>
        ensures { StrikesInBook K.meaning self.now.lines (memory lines.old [] []) (memory lines.new [] []) (λ refusal. refusal) line result }
    {
        self.check(lines.len())?;
        let change = striking::<K>(lines, line)?;
        lines[change.place] = change.line;
        Ok(())
    }

    // The bits for lines that are the book's.
    fn choice<J: Judge>(
        &self,
        lines: &[Line<K::Row>],
        room: usize,
        judge: &J,
        limits: Limits,
        tally: &mut [u32],
    ) -> Result<Choice, Refusal>
        ensures answer { MadeOf (λ _. IsChoice K.meaning (rules_of K.meaning lines.now) room (J.cost judge.now) limits) (verdict (lines_checks self.now.lines (length lines.now) ++ choice_checks K.meaning (rules_of K.meaning lines.now) limits (length tally.old) room)) result }
        ensures tally { tally.new ≡ tally_left result tally.old }
    {
        self.check(lines.len())?;
        choose::<K, J>(lines, room, judge, limits, tally)
    }

    // Chooses bits for the lines, and for an area of so many places.
    pub fn measure<J: Judge>(
        self,
        lines: &[Line<K::Row>],
        room: usize,
        judge: &J,
        limits: Limits,
        tally: &mut [u32],
    ) -> Result<(MeasuredBook<K>, Choice), Refused<OpenBook<K>>>
        ensures { Measures K.meaning self.lines room (J.cost judge.now) limits (memory lines.now [] tally.old) (memory lines.now [] tally.new) (λ made. (made.0.shape, made.1)) (back self) result }
    {
        let choice = match self.choice(lines, room, judge, limits, tally) {
            Ok(choice) => choice,
            Err(refusal) => {
                return Err(Refused {
                    state: self,
                    fault: refusal.at(0),
                });
            }
        };
        let OpenBook { lines, kind } = self;
        let shape = Shape {
            lines,
            area: room,
            bits: choice.bits,
        };
        Ok((MeasuredBook { shape, kind }, choice))
    }
}
