// Why there is no choice.
ghost use Rattle.std.specs.Prelude.{◌≡◌, Some};
ghost use Rattle.choice.specs.declared.refusal.Refusal.TheVariants.{Table};
ghost use Rattle.choice.specs.Faults.{code_of, refusal_text};

use kinds::FaultCode;
use std::fmt;

#[derive(Clone, Copy, Debug, PartialEq, Eq)]
pub enum Refusal {
    // More bits or more tries are asked for than may be.
    TooMuchAsked,
    // Nothing can be counted, or the table of no bits does not fit.
    Table(blocks::Refusal),
}

impl From<blocks::Refusal> for Refusal {
    ghost from_gives = { λ refusal own. own ≡ Table refusal };

    fn from(refusal: blocks::Refusal) -> Refusal {
        Refusal::Table(refusal)
    }
}

// Number, layer and place; those of a table's refusal are its own.
impl From<Refusal> for FaultCode {
    ghost from_gives = { λ refusal code. code ≡ code_of refusal };

    fn from(refusal: Refusal) -> FaultCode {
        match refusal {
            Refusal::TooMuchAsked => FaultCode {
                number: 12,
                layer: 2,
                place: 0,
            },
            Refusal::Table(refusal) => FaultCode::from(refusal),
        }
    }
}

impl fmt::Display for Refusal {
    ghost output = { λ refusal. Some (refusal_text refusal) };

    fn fmt<W: fmt::Write>(&self, f: &mut fmt::Formatter<W>) -> fmt::Result {
        match self {
            Refusal::TooMuchAsked => f.write_str("too many bits or tries are asked for"),
            Refusal::Table(refusal) => write!(f, "{refusal}"),
        }
    }
}
