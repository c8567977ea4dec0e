// The line that a put or a strike is to make, before anything is changed.
ghost use Rattle.std.specs.Prelude.{◌≡◌};
ghost use Rattle.kinds.specs.Checks.{MadeOf};
ghost use Rattle.kinds.specs.Lines.{rules_of};
ghost use Rattle.table.specs.Checks.{verdict, put_checks, strike_checks};
ghost use Rattle.table.specs.Lines.{Holds, IsEmptied};

use super::refusal::Refusal;
use blocks::Change;
use kinds::{Kind, Line};

// A line filled with a rule.
pub(crate) fn filling<K: Kind>(
    lines: &[Line<K::Row>],
    line: usize,
    rule: &K::Rule,
) -> Result<Change<K::Row>, Refusal>
    ensures { MadeOf (λ _ change. (change.place ≡ line) × Holds K.meaning rule.now change.line) (verdict (put_checks (rules_of K.meaning lines.now) line)) result }
{
    if line >= lines.len() {
        return Err(Refusal::NoSuchLine);
    }
    Ok(Change {
        place: line,
        line: kinds::filled::<K>(rule),
    })
}

// A filled line with its mark cleared.
#[tactic(auto, using(crate::proofs::Lines::strike_verdict))]
pub(crate) fn striking<K: Kind>(
    lines: &[Line<K::Row>],
    line: usize,
) -> Result<Change<K::Row>, Refusal>
    ensures { MadeOf (λ _ change. (change.place ≡ line) × IsEmptied lines.now line change.line) (verdict (strike_checks (rules_of K.meaning lines.now) line)) result }
{
    let found = lines.get(line).ok_or(Refusal::NoSuchLine)?;
    if kinds::rule_of::<K>(found).is_none() {
        return Err(Refusal::EmptyLine);
    }
    Ok(Change {
        place: line,
        line: Line {
            mark: false,
            row: found.row,
        },
    })
}
