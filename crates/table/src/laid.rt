// A laid table: it looks up, and its lines change with their table.
ghost use Rattle.std.specs.Prelude.{◌≡◌, ◌<◌, ◌≤◌, List, length, IsOkAnd, Option, is_ok, if◌then◌else◌, slice_set};
ghost use Rattle.kinds.specs.Checks.{MadeOf};
ghost use Rattle.kinds.specs.Lines.{rules_of};
ghost use Rattle.blocks.specs.Cells.{cell_of};
ghost use Rattle.blocks.specs.Blocks.{block};
ghost use Rattle.layout.specs.Layout.{laid};
ghost use Rattle.layout.specs.LookUp.{FindsLowest};

use super::change::{filling, striking};
use super::layers::{choose, lay};
use super::open::OpenBook;
use super::refusal::{Fault, Refusal};
use super::shape::Shape;
use blocks::Change;
use choice::{Choice, Limits};
use judges::Judge;
use kinds::{Kind, Line};
use std::marker::PhantomData;

// The numbers of a table, tied to its kind.
#[derive(Drop)]
pub struct LaidTable<K> {
    pub(crate) shape: Shape,
    pub(crate) kind: PhantomData<K>,
}

impl<K: Kind> LaidTable<K> {
    ghost use Rattle.table.specs.Checks.{verdict, room_checks};
    ghost use Rattle.table.specs.Refusals.{at};
    ghost use Rattle.table.specs.Calls.{memory, tally_left, Puts, Strikes, ChoosesAnew, laid_for, looks_up, block_found};

    // How many lines the table has.
    pub fn lines(&self) -> usize
        ensures { result ≡ self.now.shape.lines }
    {
        self.shape.lines
    }

    // Lays the table with one line changed, and then changes the line.
    fn change(
        &self,
        lines: &mut [Line<K::Row>],
        area: &mut [u32],
        tally: &mut [u32],
        change: Change<K::Row>,
    ) -> Result<(), Refusal>
        requires few { length lines.old ≤ 16384 }
        requires inside { change.place < length lines.old }
        ensures answer { result ≡ verdict (room_checks K.meaning (rules_of K.meaning (slice_set lines.old change.place change.line)) self.now.shape.bits (length tally.old) (length area.old)) }
        ensures lines { lines.new ≡ (if is_ok result then slice_set lines.old change.place change.line else lines.old) }
        ensures area { area.new ≡ (if is_ok result then laid K.meaning (rules_of K.meaning lines.new) self.now.shape.bits (length area.old) else area.old) }
        ensures tally { tally.new ≡ tally_left result tally.old }
    {
        lay::<K>(lines, Some(change), &self.shape.bits, area, tally)?;
        lines[change.place] = change.line;
        Ok(())
    }

    // Puts a rule into a line.
    pub fn put(
        &self,
        lines: &mut [Line<K::Row>],
        area: &mut [u32],
        tally: &mut [u32],
        line: usize,
        rule: &K::Rule,
    ) -> Result<(), Fault>
        ensures { Puts K.meaning self.now.shape (memory lines.old area.old tally.old) (memory lines.new area.new tally.new) (at line) line rule.now result }
    {
        self.try_put(lines, area, tally, line, rule)
            .map_err(|refusal| refusal.at(line))
    }

    // The same, told without its line.
    fn try_put(
        &self,
        lines: &mut [Line<K::Row>],
        area: &mut [u32],
        tally: &mut [u32],
        line: usize,
        rule: &K::Rule,
    ) -> Result<(), Refusal>
        ensures { Puts K.meaning self.now.shape (memory lines.old area.old tally.old) (memory lines.new area.new tally.new) (λ refusal. refusal) line rule.now result }
    {
        self.shape.check(lines.len(), area.len())?;
        let change = filling::<K>(lines, line, rule)?;
        self.change(lines, area, tally, change)
    }

    // Strikes a filled line.
    pub fn strike(
        &self,
        lines: &mut [Line<K::Row>],
        area: &mut [u32],
        tally: &mut [u32],
        line: usize,
    ) -> Result<(), Fault>
        ensures { Strikes K.meaning self.now.shape (memory lines.old area.old tally.old) (memory lines.new area.new tally.new) (at line) line result }
    {
        self.try_strike(lines, area, tally, line)
            .map_err(|refusal| refusal.at(line))
    }

    // The same, told without its line.
    fn try_strike(
        &self,
        lines: &mut [Line<K::Row>],
        area: &mut [u32],
        tally: &mut [u32],
        line: usize,
    ) -> Result<(), Refusal>
        ensures { Strikes K.meaning self.now.shape (memory lines.old area.old tally.old) (memory lines.new area.new tally.new) (λ refusal. refusal) line result }
    {
        self.shape.check(lines.len(), area.len())?;
        let change = striking::<K>(lines, line)?;
        self.change(lines, area, tally, change)
    }

    // Measures the present lines and lays their table.
    pub fn choose<J: Judge>(
        &mut self,
        lines: &[Line<K::Row>],
        area: &mut [u32],
        judge: &J,
        limits: Limits,
        tally: &mut [u32],
    ) -> Result<Choice, Fault>
        ensures { ChoosesAnew K.meaning self.old.shape (memory lines.now area.old tally.old) (memory lines.now area.new tally.new) (J.cost judge.now) limits self.new.shape result }
    {
        self.shape.check(lines.len(), area.len())?;
        let choice = choose::<K, J>(lines, area.len(), judge, limits, tally)?;
        lay::<K>(lines, None, &choice.bits, area, tally)?;
        self.shape.bits = choice.bits;
        Ok(choice)
    }

    // The line that answers a header, or none, and how many entries were tried: a pair, by a rule of the project.
    pub fn look_up(
        &self,
        lines: &[Line<K::Row>],
        area: &[u32],
        header: &K::Header,
    ) -> Result<(Option<usize>, usize), Fault>
        ensures answer { result ≡ looks_up K.meaning self.now.shape header.now lines.now area.now }
        ensures facts { length lines.now ≡ self.now.shape.lines → length area.now ≡ self.now.shape.area → area.now ≡ laid_for K.meaning self.now.shape lines.now area.now → FindsLowest K.meaning (rules_of K.meaning lines.now) self.now.shape.bits header.now result }
    {
        self.shape.check(lines.len(), area.len())?;
        Ok(layout::look_up::<K>(lines, &self.shape.bits, area, header).map_err(Refusal::from)?)
    }

    // The block of a header as a part of the area itself.
    pub fn block<'a>(&self, area: &'a [u32], header: &K::Header) -> Result<&'a [u32], Fault>
        ensures answer { MadeOf (λ entries part. part.now ≡ entries) (block_found K.meaning self.now.shape header.now area.now) result }
        ensures facts { (rules : List (Option _)) → length area.now ≡ self.now.shape.area → area.now ≡ laid K.meaning rules self.now.shape.bits (length area.now) → IsOkAnd result (λ part. part.now ≡ block K.meaning rules self.now.shape.bits (cell_of K.meaning self.now.shape.bits header.now)) }
    {
        if area.len() != self.shape.area {
            return Err(Refusal::OtherMemory.at(0));
        }
        Ok(layout::block::<K>(&self.shape.bits, area, header).map_err(Refusal::from)?)
    }

    // Opens the book again, with the same lines.
    pub fn reopen(self) -> OpenBook<K>
        ensures { result.lines ≡ self.shape.lines }
    {
        let LaidTable { shape, kind } = self;
        OpenBook::again(shape, kind)
    }
}
