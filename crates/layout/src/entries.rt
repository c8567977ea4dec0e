// The entries of all blocks, written line by line: each block has a cursor, which tells where its next entry goes.
ghost use Rattle.std.specs.Prelude.{◌≡◌, ◌+◌, ◌^◌, ◌<◌, ◌≤◌, ◌++◌, length, take, sum, slice_index, slice_set};
ghost use Rattle.std.specs.List.{flat_map};
ghost use Rattle.blocks.specs.Blocks.{blocks as all_blocks, cells_naming, sizes as all_sizes};
ghost use Rattle.blocks.specs.Plans.{rules_in};
ghost use Rattle.blocks.specs.Raising.{raised};
ghost use Rattle.layout.specs.Layout.{starts as starts_of};
ghost use Rattle.layout.specs.Placing.{placed, FindPlaces};

use blocks::{Admitted, Plan};
use kinds::{Kind, Masked};

// Writes a line at the cursor of a cell, and moves the cursor on.
#[inline(always)]
fn write_entry(entries: &mut [u32], cursors: &mut [u32], cell: usize, line: u32)
    requires cell { cell < length cursors.old }
    requires place { slice_index cursors.old cell < length entries.old }
    requires few { length entries.old < 2 ^ 32 }
    ensures entries { entries.new ≡ slice_set entries.old (slice_index cursors.old cell) line }
    ensures cursors { cursors.new ≡ slice_set cursors.old cell (slice_index cursors.old cell + 1) }
{
    let cursor = cursors[cell];
    // `as`: there is no `From<u32>` for `usize`.
    entries[cursor as usize] = line;
    cursors[cell] = cursor + 1;
}

// Writes a line into the blocks of some cells, and moves their cursors on.
fn write_masked(entries: &mut [u32], cursors: &mut [u32], cells: Masked, line: u32)
    requires places { FindPlaces (length entries.old) cells cursors.old }
    requires few { length entries.old < 2 ^ 32 }
    ensures entries { entries.new ≡ placed line cells cursors.old entries.old }
    ensures cursors { cursors.new ≡ raised cells cursors.old }
{
    for cell in cells {
        write_entry(entries, cursors, cell, line);
    }
}

// The same for cells of any other kind.
#[inline(always)]
fn write_line<K: Kind>(entries: &mut [u32], cursors: &mut [u32], cells: Admitted<K>, line: u32)
    requires places { FindPlaces (length entries.old) cells cursors.old }
    requires few { length entries.old < 2 ^ 32 }
    ensures entries { entries.new ≡ placed line cells.entry cursors.old entries.old }
    ensures cursors { cursors.new ≡ raised cells.entry cursors.old }
{
    for cell in cells {
        write_entry(entries, cursors, cell, line);
    }
}

// The same for the cells whose blocks name a line. There are few lines, so `as` loses nothing, here and below.
// Not inlined, so that the way of most lines stays short and in registers.
#[inline(never)]
fn write_any<K: Kind>(entries: &mut [u32], cursors: &mut [u32], plan: &Plan<K::Row>, line: usize)
    requires places { FindPlaces (length entries.old) (cells_naming K.meaning (rules_in K.meaning plan.now) plan.now.bits.now line) cursors.old }
    requires few { length entries.old < 2 ^ 32 }
    requires line { line < 16384 }
    ensures entries { entries.new ≡ placed line (cells_naming K.meaning (rules_in K.meaning plan.now) plan.now.bits.now line) cursors.old entries.old }
    ensures cursors { cursors.new ≡ raised (cells_naming K.meaning (rules_in K.meaning plan.now) plan.now.bits.now line) cursors.old }
{
    write_line::<K>(entries, cursors, plan.cells::<K>(line), line as u32);
}

// The same, the short way where there is one.
#[inline(always)]
fn write_entries<K: Kind>(
    entries: &mut [u32],
    cursors: &mut [u32],
    plan: &Plan<K::Row>,
    line: usize,
)
    requires places { FindPlaces (length entries.old) (cells_naming K.meaning (rules_in K.meaning plan.now) plan.now.bits.now line) cursors.old }
    requires few { length entries.old < 2 ^ 32 }
    requires line { line < 16384 }
    ensures entries { entries.new ≡ placed line (cells_naming K.meaning (rules_in K.meaning plan.now) plan.now.bits.now line) cursors.old entries.old }
    ensures cursors { cursors.new ≡ raised (cells_naming K.meaning (rules_in K.meaning plan.now) plan.now.bits.now line) cursors.old }
{
    match plan.masked::<K>(line) {
        Some(cells) => write_masked(entries, cursors, cells, line as u32),
        None => write_any::<K>(entries, cursors, plan, line),
    }
}

// Writes all blocks in cell order. The cursors begin as the blocks' starts; nobody reads what they hold afterwards.
pub(crate) fn write_blocks<K: Kind>(entries: &mut [u32], cursors: &mut [u32], plan: &Plan<K::Row>)
    requires few { length cursors.old ≤ 4096 }
    requires starts { cursors.old ≡ take (2 ^ length plan.now.bits.now) (starts_of (all_sizes K.meaning (rules_in K.meaning plan.now) plan.now.bits.now)) }
    requires room { length entries.old ≡ sum (all_sizes K.meaning (rules_in K.meaning plan.now) plan.now.bits.now) }
    ensures { entries.new ≡ flat_map (λ entries. entries) (all_blocks K.meaning (rules_in K.meaning plan.now) plan.now.bits.now) }
{
    for line in 0..plan.lines.len() {
        write_entries::<K>(entries, cursors, plan, line);
    }
}
