// The choice of bits, whole.
ghost use Rattle.std.specs.Prelude.{◌≤◌, ◌≡◌, IfOk, length, replicate, if◌then◌else◌};
ghost use Rattle.kinds.specs.Checks.{MadeOf};
ghost use Rattle.kinds.specs.Lines.{rules_of};
ghost use Rattle.choice.specs.Checks.{allowed, began};
ghost use Rattle.choice.specs.Choice.{Reached, FitsIn, IsChoice, IsOnlyChoice, Way, UnbetteredIfSettled};

use super::choice::Choice;
use super::limits::Limits;
use super::refusal::Refusal;
use super::search::Search;
use bits::Bits;
use blocks::Tally;
use judges::Judge;
use kinds::{Kind, Line};

// Chooses the bits for the table of some lines in an area of so many places.
pub fn choose<K: Kind, J: Judge>(
    lines: &[Line<K::Row>],
    room: usize,
    judge: &J,
    limits: Limits,
    tally: &mut [u32],
) -> Result<Choice, Refusal>
    ensures answer { MadeOf (λ _. IsChoice K.meaning (rules_of K.meaning lines.now) room (J.cost judge.now) limits) (allowed K.meaning lines.now limits (length tally.old) room) result }
    ensures only { IfOk result (IsOnlyChoice K.meaning (rules_of K.meaning lines.now) room (J.cost judge.now) limits) }
    ensures reached { IfOk result (λ choice. Reached (FitsIn K.meaning (rules_of K.meaning lines.now) room) K.meaning.width limits.most_bits choice.bits) }
    ensures way { IfOk result (Way K.meaning (rules_of K.meaning lines.now) room (J.cost judge.now) limits.most_bits) }
    ensures tries { IfOk result (λ choice. choice.tries ≤ limits.most_tries) }
    ensures unbettered { IfOk result (UnbetteredIfSettled K.meaning (rules_of K.meaning lines.now) room (J.cost judge.now)) }
    ensures tally { tally.new ≡ (if began result then replicate (length tally.old) 0 else tally.old) }
{
    limits.check::<K>()?;
    blocks::ready(lines.len(), 1 << limits.most_bits, tally.len())?;
    let mut guard = Tally::new(tally);
    let search = Search { lines, room, judge };
    let none = search
        .offer::<K>(&mut guard, Bits::none())
        .ok_or(blocks::Refusal::NoRoom)?;
    let grown = search.grow::<K>(&mut guard, none, limits.most_bits);
    Ok(search.evolve::<K>(&mut guard, grown, limits.most_tries))
}
