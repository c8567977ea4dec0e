// A measured book: its bits are chosen, and its table is not laid.
ghost use Rattle.std.specs.Prelude.{◌≡◌, ◌++◌, length, is_ok, if◌then◌else◌};

use super::laid::LaidTable;
use super::layers::lay;
use super::open::OpenBook;
use super::refusal::{Refusal, Refused};
use super::shape::Shape;
use kinds::{Kind, Line};
use std::marker::PhantomData;

// The numbers of the table that is to be laid, tied to its kind.
#[derive(Drop)]
pub struct MeasuredBook<K> {
    pub(crate) shape: Shape,
    pub(crate) kind: PhantomData<K>,
}

impl<K: Kind> MeasuredBook<K> {
    ghost use Rattle.kinds.specs.Lines.{rules_of};
    ghost use Rattle.table.specs.Refusals.{back};
    ghost use Rattle.table.specs.Checks.{verdict, memory_checks, room_checks};
    ghost use Rattle.table.specs.Calls.{memory, tally_left, laid_for, Lays};

    // Lays the table where the memory is the book's.
    fn try_lay(
        &self,
        lines: &[Line<K::Row>],
        area: &mut [u32],
        tally: &mut [u32],
    ) -> Result<(), Refusal>
        ensures answer { result ≡ verdict (memory_checks self.now.shape (length lines.now) (length area.old) ++ room_checks K.meaning (rules_of K.meaning lines.now) self.now.shape.bits (length tally.old) (length area.old)) }
        ensures area { area.new ≡ (if is_ok result then laid_for K.meaning self.now.shape lines.now area.old else area.old) }
        ensures tally { tally.new ≡ tally_left result tally.old }
    {
        self.shape.check(lines.len(), area.len())?;
        lay::<K>(lines, None, &self.shape.bits, area, tally)
    }

    // Lays the table of the lines.
    pub fn lay(
        self,
        lines: &[Line<K::Row>],
        area: &mut [u32],
        tally: &mut [u32],
    ) -> Result<LaidTable<K>, Refused<MeasuredBook<K>>>
        ensures { Lays K.meaning self.shape (memory lines.now area.old tally.old) (memory lines.now area.new tally.new) (λ table. table.shape) (back self) result }
    {
        match self.try_lay(lines, area, tally) {
            Ok(()) => {
                let MeasuredBook { shape, kind } = self;
                Ok(LaidTable { shape, kind })
            }
            Err(refusal) => Err(Refused {
                state: self,
                fault: refusal.at(0),
            }),
        }
    }

    // Opens the book again, with the same lines.
    pub fn reopen(self) -> OpenBook<K>
        ensures { result.lines ≡ self.shape.lines }
    {
        let MeasuredBook { shape, kind } = self;
        OpenBook::again(shape, kind)
    }
}
