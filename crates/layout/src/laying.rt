// Laying a table: its size is compared with the area before anything is written.
ghost use Rattle.std.specs.Prelude.{◌≡◌, ◌+◌, ◌-◌, ◌^◌, ◌<◌, ◌≤◌, ◌++◌, length, take, replicate, is_ok, if◌then◌else◌, sum};
ghost use Rattle.std.specs.List.{flat_map};
ghost use Rattle.kinds.specs.Checks.{checked};
ghost use Rattle.kinds.specs.Lines.{rules_of};
ghost use Rattle.blocks.specs.Blocks.{Fits, blocks as all_blocks, sizes as all_sizes};
ghost use Rattle.blocks.specs.Changes.{changed};
ghost use Rattle.blocks.specs.Counts.{table_checks, began};
ghost use Rattle.blocks.specs.Plans.{rules_in};
ghost use Rattle.layout.specs.Layout.{starts as starts_of, laid};

use super::entries::write_blocks;
use bits::{Bits, Chosen};
use blocks::{Change, Plan, Refusal, Tally};
use kinds::{Kind, Line};

// Writes where each block starts, and last where they all end. Of the numbers, which are the sizes, each gives way to its block's start.
// A range and no iterator: two slices are written at the same place.
fn write_starts(starts: &mut [u32], numbers: &mut [u32])
    requires room { length starts.old ≡ length numbers.old + 1 }
    requires few { sum numbers.old < 2 ^ 32 }
    ensures starts { starts.new ≡ starts_of numbers.old }
    ensures numbers { numbers.new ≡ take (length numbers.old) (starts_of numbers.old) }
{
    let mut start: u32 = 0;
    for cell in 0..numbers.len() {
        let size = numbers[cell];
        starts[cell] = start;
        numbers[cell] = start;
        start += size;
    }
    starts[numbers.len()] = start;
}

// Writes behind the starts all blocks, so many entries, and zeros to the end.
fn write_rest<K: Kind>(rest: &mut [u32], cursors: &mut [u32], plan: &Plan<K::Row>, count: usize)
    requires few { length cursors.old ≤ 4096 }
    requires starts { cursors.old ≡ take (2 ^ length plan.now.bits.now) (starts_of (all_sizes K.meaning (rules_in K.meaning plan.now) plan.now.bits.now)) }
    requires count { count ≡ sum (all_sizes K.meaning (rules_in K.meaning plan.now) plan.now.bits.now) }
    requires room { count ≤ length rest.old }
    ensures { rest.new ≡ flat_map (λ entries. entries) (all_blocks K.meaning (rules_in K.meaning plan.now) plan.now.bits.now) ++ replicate (length rest.old - count) 0 }
{
    write_blocks::<K>(&mut rest[..count], cursors, plan);
    blocks::clear_from(rest, count);
}

// Writes a whole table that was counted into the numbers of a tally, and fits.
fn write_table<K: Kind>(plan: &Plan<K::Row>, tally: &mut [u32], area: &mut [u32])
    requires few { 2 ^ length plan.now.bits.now ≤ length tally.old }
    requires counted { take (2 ^ length plan.now.bits.now) tally.old ≡ all_sizes K.meaning (rules_in K.meaning plan.now) plan.now.bits.now }
    requires room { Fits K.meaning (rules_in K.meaning plan.now) plan.now.bits.now (length area.old) }
    ensures { area.new ≡ laid K.meaning (rules_in K.meaning plan.now) plan.now.bits.now (length area.old) }
{
    let cells = plan.bits.cells();
    let (starts, rest) = area.split_at_mut(cells + 1);
    write_starts(starts, &mut tally[..cells]);
    write_rest::<K>(rest, &mut tally[..cells], plan, starts[cells] as usize);
}

// Lays the table of some lines, which may have one of them changed, for a set of bits, or leaves the area as it was.
// The lines are only read. Lines and bits and no `Plan`: too many lines are refused here.
pub fn lay<K: Kind>(
    lines: &[Line<K::Row>],
    change: Option<Change<K::Row>>,
    bits: &Bits,
    area: &mut [u32],
    tally: &mut [u32],
) -> Result<(), Refusal>
    ensures answer { result ≡ checked (table_checks K.meaning (changed change lines.now) bits.now (length tally.old) (length area.old)) tt }
    ensures area { area.new ≡ (if is_ok result then laid K.meaning (rules_of K.meaning (changed change lines.now)) bits.now (length area.old) else area.old) }
    ensures tally { tally.new ≡ (if began result then replicate (length tally.old) 0 else tally.old) }
{
    blocks::ready(lines.len(), bits.cells(), tally.len())?;
    let mut guard = Tally::new(tally);
    guard.fits::<K>(lines, change, bits, area.len())?;
    let plan = Plan {
        lines,
        change,
        bits,
        chosen: Chosen::new(bits),
    };
    write_table::<K>(&plan, guard.cells, area);
    Ok(())
}
