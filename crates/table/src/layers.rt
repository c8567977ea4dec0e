// The layers below, as a book tells them: choosing bits for its lines, and laying their table.
ghost use Rattle.std.specs.Prelude.{◌≡◌, ◌≤◌, length, Ok, IfOk, is_ok, if◌then◌else◌};
ghost use Rattle.kinds.specs.Checks.{MadeOf};
ghost use Rattle.kinds.specs.Lines.{rules_of};
ghost use Rattle.blocks.specs.Changes.{changed};
ghost use Rattle.choice.specs.Choice.{IsChoice};
ghost use Rattle.layout.specs.Layout.{laid};
ghost use Rattle.table.specs.Checks.{verdict, room_checks, choice_checks};
ghost use Rattle.table.specs.Calls.{tally_left};

use super::refusal::Refusal;
use bits::Bits;
use blocks::Change;
use choice::{Choice, Limits};
use judges::Judge;
use kinds::{Kind, Line};

// Chooses bits for a book's lines. What is chosen can be laid with the same tally, in an area of so many places.
pub(crate) fn choose<K: Kind, J: Judge>(
    lines: &[Line<K::Row>],
    room: usize,
    judge: &J,
    limits: Limits,
    tally: &mut [u32],
) -> Result<Choice, Refusal>
    requires few { length lines.now ≤ 16384 }
    ensures answer { MadeOf (λ _. IsChoice K.meaning (rules_of K.meaning lines.now) room (J.cost judge.now) limits) (verdict (choice_checks K.meaning (rules_of K.meaning lines.now) limits (length tally.old) room)) result }
    ensures room { IfOk result (λ choice. verdict (room_checks K.meaning (rules_of K.meaning lines.now) choice.bits (length tally.old) room) ≡ Ok tt) }
    ensures tally { tally.new ≡ tally_left result tally.old }
{
    Ok(choice::choose::<K, J>(lines, room, judge, limits, tally)?)
}

// Lays the table of a book's lines, which may have one of them changed.
pub(crate) fn lay<K: Kind>(
    lines: &[Line<K::Row>],
    change: Option<Change<K::Row>>,
    bits: &Bits,
    area: &mut [u32],
    tally: &mut [u32],
) -> Result<(), Refusal>
    requires few { length lines.now ≤ 16384 }
    ensures answer { result ≡ verdict (room_checks K.meaning (rules_of K.meaning (changed change lines.now)) bits.now (length tally.old) (length area.old)) }
    ensures area { area.new ≡ (if is_ok result then laid K.meaning (rules_of K.meaning (changed change lines.now)) bits.now (length area.old) else area.old) }
    ensures tally { tally.new ≡ tally_left result tally.old }
{
    layout::lay::<K>(lines, change, bits, area, tally)?;
    Ok(())
}
