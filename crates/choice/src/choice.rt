// What a choice gives.
ghost use Rattle.std.specs.Prelude.{Some};

use bits::Bits;
use std::fmt;

// How a choice ended.
#[derive(Clone, Copy, Debug, PartialEq, Eq)]
pub enum Outcome {
    // Every exchange was passed.
    Settled,
    // The tries were spent before that.
    Stopped,
}

impl fmt::Display for Outcome {
    ghost use Rattle.choice.specs.Outcomes.{outcome_text};

    ghost output = { λ outcome. Some (outcome_text outcome) };

    fn fmt<W: fmt::Write>(&self, f: &mut fmt::Formatter<W>) -> fmt::Result {
        f.write_str(match self {
            Outcome::Settled => "settled",
            Outcome::Stopped => "stopped",
        })
    }
}

// The bits, how many exchanges were tried, and how that ended. No `==`: nothing compares choices.
#[derive(Clone, Copy, Debug)]
pub struct Choice {
    pub bits: Bits,
    pub tries: u32,
    pub outcome: Outcome,
}
