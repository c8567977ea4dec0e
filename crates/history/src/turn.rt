// The calls of a history, and their answers.
ghost use Rattle.std.specs.Prelude.{◌≡◌};

use choice::{Choice, Limits};
use table::Fault;

// What is asked of a choice.
#[derive(Drop)]
pub struct Asked<J> {
    pub judge: J,
    pub limits: Limits,
}

// A call on a laid table, by its rules `R`, headers `H` and judges `J`. It has no bound: it only holds them.
#[derive(Drop)]
pub enum Call<R, H, J> {
    Put { line: usize, rule: R },
    Strike { line: usize },
    Choose { asked: Asked<J> },
    LookUp { header: H },
}

// A call, how many numbers of the tally it is lent, and its answer once it was carried out.
#[derive(Drop)]
pub struct Turn<R, H, J> {
    pub call: Call<R, H, J>,
    pub tally: usize,
    pub answer: Option<Answer>,
}

// What a table answers.
#[derive(Clone, Copy, Debug)]
pub enum Answer {
    // The line was put or struck.
    Done,
    // Bits were chosen anew, and the table was laid for them.
    Chosen(Choice),
    // The line that answers a header, or none, and how many entries were tried.
    Found(Option<usize>, usize),
    // The call changed nothing.
    Refused(Fault),
}

impl From<Result<(), Fault>> for Answer {
    ghost use Rattle.history.specs.Turns.{of_change};

    ghost from_gives = { λ result answer. answer ≡ of_change result };

    fn from(answer: Result<(), Fault>) -> Answer {
        match answer {
            Ok(()) => Answer::Done,
            Err(fault) => Answer::Refused(fault),
        }
    }
}

impl From<Result<Choice, Fault>> for Answer {
    ghost use Rattle.history.specs.Turns.{of_choice};

    ghost from_gives = { λ result answer. answer ≡ of_choice result };

    fn from(answer: Result<Choice, Fault>) -> Answer {
        match answer {
            Ok(choice) => Answer::Chosen(choice),
            Err(fault) => Answer::Refused(fault),
        }
    }
}

impl From<Result<(Option<usize>, usize), Fault>> for Answer {
    ghost use Rattle.history.specs.Turns.{of_look_up};

    ghost from_gives = { λ result answer. answer ≡ of_look_up result };

    fn from(answer: Result<(Option<usize>, usize), Fault>) -> Answer {
        match answer {
            Ok((line, tried)) => Answer::Found(line, tried),
            Err(fault) => Answer::Refused(fault),
        }
    }
}
