// A history with judges of two sorts, refused calls, and tallies of different lengths.
use super::tables::{TWO_BITS, book, told};
use bridge::{Bridge, Header, Rule};
use choice::{Limits, Outcome};
use history::{Answer, Asked, Call, Turn, run};
use kinds::FaultCode;
use records::NamedJudge;
use std::test::Fail;

// Answers as the test compares them.
#[derive(Clone, Copy, Debug, PartialEq, Eq)]
enum Told {
    Done,
    // The first two bits (0 where there is none), the tries, and how it ended.
    Chosen(usize, usize, u32, Outcome),
    Found(Option<usize>, usize),
    // Number and place.
    Refused(u16, usize),
}

fn as_told(answer: Answer) -> Told {
    match answer {
        Answer::Done => Told::Done,
        Answer::Chosen(choice) => Told::Chosen(
            choice.bits.at(0),
            choice.bits.at(1),
            choice.tries,
            choice.outcome,
        ),
        Answer::Found(line, tried) => Told::Found(line, tried),
        Answer::Refused(fault) => {
            let (number, place) = told(fault);
            Told::Refused(number, place)
        }
    }
}

// A turn that is lent four numbers of the tally.
fn turn(call: Call<Rule, Header, NamedJudge>) -> Turn<Rule, Header, NamedJudge> {
    Turn {
        call,
        tally: 4,
        answer: None,
    }
}

fn look_up(first: u8) -> Turn<Rule, Header, NamedJudge> {
    turn(Call::LookUp {
        header: seven_lines::header(first),
    })
}

fn choose(judge: NamedJudge, most_bits: usize, tally: usize) -> Turn<Rule, Header, NamedJudge> {
    let limits = Limits {
        most_bits,
        most_tries: 1000,
    };
    Turn {
        call: Call::Choose {
            asked: Asked { judge, limits },
        },
        tally,
        answer: None,
    }
}

#[test]
fn is_carried_out(rt: HostRuntime) -> Result<(), Fail> {
    let mut lines = seven_lines::lines();
    let rule = kinds::rule_of::<Bridge>(&lines[4]).ok_or("no rule")?;
    let mut area = [7u32; 17];
    let mut tally = [7u32; 9];
    let mut turns = [
        look_up(0xe0),
        turn(Call::Strike { line: 4 }),
        look_up(0xe0),
        turn(Call::Strike { line: 4 }),
        turn(Call::Put { line: 9, rule }),
        Turn {
            call: Call::Put { line: 4, rule },
            tally: 3,
            answer: Some(Answer::Done),
        },
        turn(Call::Put { line: 4, rule }),
        choose(NamedJudge::Squares, 2, 100),
        look_up(0xe0),
        choose(NamedJudge::Largest, 13, 4),
        choose(NamedJudge::Largest, 2, 3),
        choose(NamedJudge::Largest, 1, 2),
    ];
    let expected = [
        Told::Found(Some(4), 2),
        Told::Done,
        Told::Found(Some(6), 2),
        Told::Refused(11, 4),
        Told::Refused(10, 9),
        Told::Refused(14, 4),
        Told::Done,
        Told::Chosen(0, 1, 220, Outcome::Settled),
        Told::Found(Some(4), 2),
        Told::Refused(12, 0),
        Told::Refused(14, 0),
        Told::Chosen(0, 0, 111, Outcome::Settled),
    ];
    let asked = Asked {
        judge: NamedJudge::Largest,
        limits: TWO_BITS,
    };
    let book = book(&mut lines).map_err(|_| "no book")?;
    let ran = run(book, &mut lines, &mut area, &mut tally, &asked, &mut turns);
    assert!(rt; ran.is_ok(), "it is made");
    for (at, turn) in turns.iter().enumerate() {
        assert_eq!(rt; turn.answer.map(as_told), Some(expected[at]), "turn {at}");
    }
    assert_eq!(rt; tally, [0u32; 9]);
    Ok(())
}
