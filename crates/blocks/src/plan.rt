// What a table is made of.
ghost use Rattle.std.specs.Prelude.{◌≡◌, ◌≤◌, length, None, IfSome, option_copied, slice_get, slice_index_or};

use super::admitted::Admitted;
use super::change::Change;
use bits::{Bits, Chosen};
use kinds::{Kind, Line, Masked};

// Lines, at most 16,384, as they stand or with one of them replaced, and the chosen bits. No `==`: nothing compares plans.
#[derive(Drop)]
pub struct Plan<'a, R> {
    pub lines: &'a [Line<R>],
    pub change: Option<Change<R>>,
    pub bits: &'a Bits,
    // The same as an array, which is read faster for each line.
    pub chosen: Chosen,
    ghost told: { chosen ≡ bits.now },
    ghost few: { length lines.now ≤ 16384 },
}

impl<R: Copy> Plan<'_, R> {
    ghost use Rattle.blocks.specs.Blocks.{cells_naming};
    ghost use Rattle.blocks.specs.Changes.{changed};
    ghost use Rattle.blocks.specs.Plans.{rules_in};

    // The line at a place as it stands, or as it would stand after the change.
    fn line(&self, place: usize) -> Option<&Line<R>>
        ensures { option_copied result ≡ slice_get (changed self.now.change self.now.lines.now) place }
    {
        match &self.change {
            Some(change) if change.place == place && place < self.lines.len() => {
                Some(&change.line)
            }
            _ => self.lines.get(place),
        }
    }

    // The rule of the line at a place, or none where it is empty.
    fn rule<K: Kind<Row = R>>(&self, place: usize) -> Option<K::Rule>
        ensures { result ≡ slice_index_or (rules_in K.meaning self.now) place None }
    {
        self.line(place).and_then(|line| kinds::rule_of::<K>(line))
    }

    // The cells whose blocks name the line at a place, in rising order, where its kind tells them bit by bit; or none.
    // Always inlined, as what it calls: the cells are then kept in registers, and counting is faster by a tenth.
    #[inline(always)]
    pub fn masked<K: Kind<Row = R>>(&self, place: usize) -> Option<Masked>
        ensures { IfSome result (λ cells. cells ≡ cells_naming K.meaning (rules_in K.meaning self.now) self.now.bits.now place) }
    {
        match self.rule::<K>(place) {
            Some(rule) => K::masked(&rule, &self.chosen),
            None => Some(Masked::none()),
        }
    }

    // The cells whose blocks name the line at a place, in rising order.
    #[inline(always)]
    pub fn cells<K: Kind<Row = R>>(&self, place: usize) -> Admitted<'_, K>
        ensures { result ≡ cells_naming K.meaning (rules_in K.meaning self.now) self.now.bits.now place }
    {
        match self.rule::<K>(place) {
            // The rule stays where it is: moved, it is slower to ask.
            Some(rule) => match K::cells(&rule, &self.chosen) {
                Some(cells) => Admitted::told(cells, self.bits),
                None => Admitted::asked(rule, self.bits),
            },
            None => Admitted::none(self.bits),
        }
    }
}
