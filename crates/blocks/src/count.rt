// Counting block sizes, line by line.
ghost use Rattle.std.specs.Prelude.{◌≡◌, ◌+◌, ◌^◌, ◌<◌, ◌≤◌, IfSome, length, take, sum, slice_index, slice_set};
ghost use Rattle.blocks.specs.Blocks.{sizes, cells_naming};
ghost use Rattle.blocks.specs.Plans.{rules_in};
ghost use Rattle.blocks.specs.Raising.{raised, MayRaise, room_left};

use super::admitted::Admitted;
use super::clear::clear_from;
use super::plan::Plan;
use kinds::{Kind, Masked};

// Raises the number of a cell, where there is room for an entry more. Tells how much room is left then.
#[inline(always)]
fn raise_cell(numbers: &mut [u32], cell: usize, room: usize) -> Option<usize>
    requires cell { cell < length numbers.old }
    requires few { slice_index numbers.old cell + 1 < 2 ^ 32 }
    ensures left { result ≡ room_left room 1 }
    ensures raised { IfSome result (λ _. numbers.new ≡ slice_set numbers.old cell (slice_index numbers.old cell + 1)) }
    ensures len { length numbers.new ≡ length numbers.old }
{
    let left = room.checked_sub(1)?;
    numbers[cell] += 1;
    Some(left)
}

// Raises the numbers of some cells, as long as there is room for an entry more. Tells how much room is left, or none where it ends before all are raised.
fn raise_masked(numbers: &mut [u32], cells: Masked, room: usize) -> Option<usize>
    requires { MayRaise cells numbers.old }
    ensures left { result ≡ room_left room (length cells) }
    ensures raised { IfSome result (λ _. numbers.new ≡ raised cells numbers.old) }
    ensures len { length numbers.new ≡ length numbers.old }
{
    let mut left = room;
    for cell in cells {
        left = raise_cell(numbers, cell, left)?;
    }
    Some(left)
}

// The same for cells of any other kind.
#[inline(always)]
fn raise<K: Kind>(numbers: &mut [u32], cells: Admitted<K>, room: usize) -> Option<usize>
    requires { MayRaise cells numbers.old }
    ensures left { result ≡ room_left room (length cells.entry) }
    ensures raised { IfSome result (λ _. numbers.new ≡ raised cells.entry numbers.old) }
    ensures len { length numbers.new ≡ length numbers.old }
{
    let mut left = room;
    for cell in cells {
        left = raise_cell(numbers, cell, left)?;
    }
    Some(left)
}

// The same for the cells whose blocks name a line.
// Not inlined, so that the way of most lines stays short and in registers.
#[inline(never)]
fn raise_any<K: Kind>(
    numbers: &mut [u32],
    plan: &Plan<K::Row>,
    line: usize,
    room: usize,
) -> Option<usize>
    requires { MayRaise (cells_naming K.meaning (rules_in K.meaning plan.now) plan.now.bits.now line) numbers.old }
    ensures left { result ≡ room_left room (length (cells_naming K.meaning (rules_in K.meaning plan.now) plan.now.bits.now line)) }
    ensures raised { IfSome result (λ _. numbers.new ≡ raised (cells_naming K.meaning (rules_in K.meaning plan.now) plan.now.bits.now line) numbers.old) }
    ensures len { length numbers.new ≡ length numbers.old }
{
    raise::<K>(numbers, plan.cells::<K>(line), room)
}

// The same, the short way where there is one.
#[inline(always)]
fn raise_line<K: Kind>(
    numbers: &mut [u32],
    plan: &Plan<K::Row>,
    line: usize,
    room: usize,
) -> Option<usize>
    requires { MayRaise (cells_naming K.meaning (rules_in K.meaning plan.now) plan.now.bits.now line) numbers.old }
    ensures left { result ≡ room_left room (length (cells_naming K.meaning (rules_in K.meaning plan.now) plan.now.bits.now line)) }
    ensures raised { IfSome result (λ _. numbers.new ≡ raised (cells_naming K.meaning (rules_in K.meaning plan.now) plan.now.bits.now line) numbers.old) }
    ensures len { length numbers.new ≡ length numbers.old }
{
    match plan.masked::<K>(line) {
        Some(cells) => raise_masked(numbers, cells, room),
        None => raise_any::<K>(numbers, plan, line, room),
    }
}

// Counts the block sizes of a plan, a number for each cell. Tells for how many more entries there is room, or none where there is too little: it stops there, and of the numbers nothing is known then.
// Not inlined: where the compiler sees the plan made, it chooses between line and change for each number of a row by itself, which is slower by a tenth.
#[inline(never)]
fn count_into<K: Kind>(numbers: &mut [u32], plan: &Plan<K::Row>, room: usize) -> Option<usize>
    requires all { length numbers.old ≡ 2 ^ length plan.now.bits.now }
    requires few { length numbers.old ≤ 4096 }
    ensures left { result ≡ room_left room (sum (sizes K.meaning (rules_in K.meaning plan.now) plan.now.bits.now)) }
    ensures counted { IfSome result (λ _. numbers.new ≡ sizes K.meaning (rules_in K.meaning plan.now) plan.now.bits.now) }
    ensures len { length numbers.new ≡ length numbers.old }
{
    clear_from(numbers, 0);
    let mut left = room;
    for line in 0..plan.lines.len() {
        left = raise_line::<K>(numbers, plan, line, left)?;
    }
    Some(left)
}

// The same into the first numbers of a tally.
pub(crate) fn count_sizes<K: Kind>(
    tally: &mut [u32],
    plan: &Plan<K::Row>,
    room: usize,
) -> Option<usize>
    requires { 2 ^ length plan.now.bits.now ≤ length tally.old }
    ensures left { result ≡ room_left room (sum (sizes K.meaning (rules_in K.meaning plan.now) plan.now.bits.now)) }
    ensures counted { IfSome result (λ _. take (2 ^ length plan.now.bits.now) tally.new ≡ sizes K.meaning (rules_in K.meaning plan.now) plan.now.bits.now) }
    ensures len { length tally.new ≡ length tally.old }
{
    let cells = plan.bits.cells();
    count_into::<K>(&mut tally[..cells], plan, room)
}
