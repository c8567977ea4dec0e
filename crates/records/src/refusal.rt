// Why a record is refused by itself, whatever came before it.
ghost use Rattle.std.specs.Prelude.{◌≡◌, Some};
ghost use Rattle.records.specs.Refusals.{code_of, refusal_text};

use kinds::FaultCode;
use std::fmt;

// Each by its number.
#[derive(Clone, Copy, Debug, PartialEq, Eq)]
pub enum Refusal {
    // The job ends inside the record.
    CutOff = 16,
    // There are no records of its kind, or it opens a book of no known kind.
    UnknownKind = 17,
    // Its body is not as long as its kind asks.
    BodyLength = 18,
}

// Number, layer and place.
impl From<Refusal> for FaultCode {
    ghost from_gives = { λ refusal code. code ≡ code_of refusal };

    fn from(refusal: Refusal) -> FaultCode {
        FaultCode {
            // `as`, which tells the discriminant.
            number: refusal as u16,
            layer: 3,
            place: 0,
        }
    }
}

impl fmt::Display for Refusal {
    ghost output = { λ refusal. Some (refusal_text refusal) };

    fn fmt<W: fmt::Write>(&self, f: &mut fmt::Formatter<W>) -> fmt::Result {
        f.write_str(match self {
            Refusal::CutOff => "the job ends inside the record",
            Refusal::UnknownKind => "the kind is unknown",
            Refusal::BodyLength => "the body is of another length than its kind has",
        })
    }
}
