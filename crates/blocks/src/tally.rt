// The tally behind its guard: counters, one for each cell, that are all zero again when the guard ends.
ghost use Rattle.std.specs.Prelude.{◌≡◌, ◌^◌, ◌<◌, ◌≤◌, true, IfOk, Ok, Err, length, take, replicate, is_ok, if◌then◌else◌, nat_lt};
ghost use Rattle.kinds.specs.Checks.{checked};
ghost use Rattle.kinds.specs.Lines.{rules_of};
ghost use Rattle.blocks.specs.Blocks.{sizes, table_size};
ghost use Rattle.blocks.specs.Changes.{changed};
ghost use Rattle.blocks.specs.Counts.{table_checks};
ghost use Rattle.blocks.specs.Plans.{rules_in};
ghost use Rattle.blocks.specs.declared.refusal.Refusal.TheVariants.{NoRoom};
ghost use Rattle.blocks.specs.Tallies.{SameCells};

use super::change::Change;
use super::clear::clear_from;
use super::count::count_sizes;
use super::plan::Plan;
use super::refusal::{Refusal, ready};
use bits::{Bits, Chosen};
use judges::Judge;
use kinds::{Kind, Line};

// It holds the lent slice, and zeroes all of it at its end, on every way out.
// That it stays the same slice relates two states, which no type can promise: each method says so (`kept`).
// The numbers are open to other crates: whoever counted may go on to use them, as laying does, and the guard zeroes whatever they hold.
pub struct Tally<'a> {
    pub cells: &'a mut [u32],
}

impl Drop for Tally<'_> {
    fn drop(self)
        ensures { self.exit.0.now ≡ replicate (length self.entry.cells.now) 0 }
    {
        clear_from(self.cells, 0);
        let Tally { cells: _ } = self;
    }
}

impl<'a> Tally<'a> {
    // A guard over a lent tally.
    pub fn new(cells: &'a mut [u32]) -> Tally<'a>
        ensures holds { result.cells.now ≡ cells.old }
        ensures same { result.cells.ghost_name ≡ cells.entry.ghost_name }
    {
        Tally { cells }
    }
}

impl Tally<'_> {
    // The numbers of the cells of a set of bits, as far as the tally reaches.
    pub fn sizes(&self, bits: &Bits) -> &[u32]
        ensures sizes { result.now ≡ take (2 ^ length bits.now) self.now.cells.now }
        ensures few { length result.now ≤ 4096 }
    {
        let cells = bits.cells();
        if cells < self.cells.len() {
            &self.cells[..cells]
        } else {
            self.cells
        }
    }

    // Counts the block sizes of a plan, as long as their table fits so many places.
    fn count<K: Kind>(&mut self, plan: &Plan<K::Row>, room: usize) -> Result<(), Refusal>
        requires { 2 ^ length plan.now.bits.now ≤ length self.old.cells.now }
        ensures answer { result ≡ (if nat_lt room (table_size K.meaning (rules_in K.meaning plan.now) plan.now.bits.now) then Err NoRoom else Ok tt) }
        ensures counted { is_ok result ≡ true → take (2 ^ length plan.now.bits.now) self.new.cells.now ≡ sizes K.meaning (rules_in K.meaning plan.now) plan.now.bits.now }
        ensures kept { SameCells self.old self.new }
    {
        let entries = room
            .checked_sub(plan.bits.cells() + 1)
            .ok_or(Refusal::NoRoom)?;
        match count_sizes::<K>(self.cells, plan, entries) {
            Some(_) => Ok(()),
            None => Err(Refusal::NoRoom),
        }
    }

    // Whether the table of some lines, which may have one of them changed, fits so many places.
    // Lines and bits and no `Plan`, here and in `cost`: a plan would ask callers for few lines, where too many are refused.
    pub fn fits<K: Kind>(
        &mut self,
        lines: &[Line<K::Row>],
        change: Option<Change<K::Row>>,
        bits: &Bits,
        room: usize,
    ) -> Result<(), Refusal>
        ensures answer { result ≡ checked (table_checks K.meaning (changed change lines.now) bits.now (length self.old.cells.now) room) tt }
        ensures counted { is_ok result ≡ true → take (2 ^ length bits.now) self.new.cells.now ≡ sizes K.meaning (rules_of K.meaning (changed change lines.now)) bits.now }
        ensures kept { SameCells self.old self.new }
    {
        ready(lines.len(), bits.cells(), self.cells.len())?;
        let plan = Plan {
            lines,
            change,
            bits,
            chosen: Chosen::new(bits),
        };
        self.count::<K>(&plan, room)
    }

    // What a judge says of the block sizes, where the table fits so many places.
    pub fn cost<K: Kind, J: Judge>(
        &mut self,
        lines: &[Line<K::Row>],
        bits: &Bits,
        room: usize,
        judge: &J,
    ) -> Result<u64, Refusal>
        ensures answer { result ≡ checked (table_checks K.meaning lines.now bits.now (length self.old.cells.now) room) (J.cost judge.now (sizes K.meaning (rules_of K.meaning lines.now) bits.now)) }
        ensures below { IfOk result (λ cost. cost < 2 ^ 63) }
        ensures kept { SameCells self.old self.new }
    {
        self.fits::<K>(lines, None, bits, room)?;
        Ok(judged(judge, self.sizes(bits)))
    }
}

// What a judge says of some sizes. It is a cost by the law of judges, since the sizes have 32 bits.
fn judged<J: Judge>(judge: &J, sizes: &[u32]) -> u64
    ensures answer { result ≡ J.cost judge.now sizes.now }
    ensures below { result < 2 ^ 63 }
{
    judge.cost_of(sizes)
}
