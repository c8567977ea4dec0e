// Carrying out the calls of a history.
ghost use Rattle.std.specs.Prelude.{◌≡◌, length};
ghost use Rattle.table.specs.Calls.{zeros};
ghost use Rattle.history.specs.Turns.{costed, asked_of, lent};
ghost use Rattle.history.specs.Histories.{moment, Step};
ghost use Rattle.history.specs.Runs.{CarriedOut};

use super::turn::{Answer, Call, Turn};
use judges::Judge;
use kinds::{Kind, Line};
use table::LaidTable;

// Carries out one call, lent a tally.
#[tactic(auto, using(crate::proofs::Carried::put_step, crate::proofs::Carried::strike_step, crate::proofs::Carried::choose_step, crate::proofs::Carried::look_step))]
fn act<K: Kind, J: Judge>(
    table: &mut LaidTable<K>,
    lines: &mut [Line<K::Row>],
    area: &mut [u32],
    tally: &mut [u32],
    call: &Call<K::Rule, K::Header, J>,
) -> Answer
    ensures step { Step K.meaning (moment table.old.shape lines.old area.old) (length tally.old) (costed J.cost call.now) result (moment table.new.shape lines.new area.new) }
    ensures tally { tally.old ≡ zeros tally.old → tally.new ≡ zeros tally.old }
{
    match call {
        Call::Put { line, rule } => Answer::from(table.put(lines, area, tally, *line, rule)),
        Call::Strike { line } => Answer::from(table.strike(lines, area, tally, *line)),
        Call::Choose { asked } => {
            Answer::from(table.choose(lines, area, &asked.judge, asked.limits, tally))
        }
        Call::LookUp { header } => Answer::from(table.look_up(lines, area, header)),
    }
}

// Carries out the call of a turn, which is lent as many numbers of the tally as it says, or all of them.
fn take_turn<K: Kind, J: Judge>(
    table: &mut LaidTable<K>,
    lines: &mut [Line<K::Row>],
    area: &mut [u32],
    tally: &mut [u32],
    turn: &Turn<K::Rule, K::Header, J>,
) -> Answer
    ensures step { Step K.meaning (moment table.old.shape lines.old area.old) (lent J.cost (length tally.old) (asked_of turn.now)).tally (lent J.cost (length tally.old) (asked_of turn.now)).call result (moment table.new.shape lines.new area.new) }
    ensures tally { tally.old ≡ zeros tally.old → tally.new ≡ zeros tally.old }
{
    let part = turn.tally.min(tally.len());
    act(table, lines, area, &mut tally[..part], &turn.call)
}

// Carries out turns in order, and writes their answers.
pub(crate) fn carry_out<K: Kind, J: Judge>(
    table: &mut LaidTable<K>,
    lines: &mut [Line<K::Row>],
    area: &mut [u32],
    tally: &mut [u32],
    turns: &mut [Turn<K::Rule, K::Header, J>],
)
    ensures lived { CarriedOut K.meaning J.cost (length tally.old) turns.old (moment table.old.shape lines.old area.old) turns.new (moment table.new.shape lines.new area.new) }
    ensures tally { tally.old ≡ zeros tally.old → tally.new ≡ zeros tally.old }
{
    for turn in turns.iter_mut() {
        let answer = take_turn(table, lines, area, tally, turn);
        turn.answer = Some(answer);
    }
}
