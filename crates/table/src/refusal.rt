// Why a book or a table refuses a call.
ghost use Rattle.std.specs.Prelude.{◌≡◌, Some};
ghost use Rattle.table.specs.Refusals.{of_table, of_choice, at, code_of, refusal_text};
ghost use Rattle.table.specs.declared.refusal.Refusal.TheVariants.{OtherMemory};

use kinds::FaultCode;
use layout::Spoilt;
use std::fmt;

// Each by its number.
#[derive(Clone, Copy, Debug, PartialEq, Eq)]
pub enum Refusal {
    // A book has 1 to 16,384 lines.
    LineCount = 9,
    // No line has the number.
    NoSuchLine = 10,
    // The line that is to be struck is empty.
    EmptyLine = 11,
    // More bits or more tries are asked for than may be.
    TooMuchAsked = 12,
    // The table is larger than the area.
    NoRoom = 13,
    // The tally has fewer numbers than there are cells.
    ShortTally = 14,
    // Lines or area are of another length than before, or the area holds what no table does.
    OtherMemory = 15,
}

// A refusal, and the line that the call was given, or 0.
#[derive(Clone, Copy, Debug, PartialEq, Eq)]
pub struct Fault {
    pub refusal: Refusal,
    pub place: usize,
}

// A refused call that was given a state hands it back.
#[derive(Drop)]
pub struct Refused<S> {
    pub state: S,
    pub fault: Fault,
}

impl Refusal {
    // The fault of a call that was given a line.
    pub(crate) fn at(self, line: usize) -> Fault
        ensures { result ≡ at line self }
    {
        Fault {
            refusal: self,
            place: line,
        }
    }
}

impl From<blocks::Refusal> for Refusal {
    ghost from_gives = { λ refusal own. own ≡ of_table refusal };

    fn from(refusal: blocks::Refusal) -> Refusal {
        match refusal {
            blocks::Refusal::TooManyLines => Refusal::LineCount,
            blocks::Refusal::NoRoom => Refusal::NoRoom,
            blocks::Refusal::ShortTally => Refusal::ShortTally,
        }
    }
}

impl From<choice::Refusal> for Refusal {
    ghost from_gives = { λ refusal own. own ≡ of_choice refusal };

    fn from(refusal: choice::Refusal) -> Refusal {
        match refusal {
            choice::Refusal::TooMuchAsked => Refusal::TooMuchAsked,
            choice::Refusal::Table(refusal) => Refusal::from(refusal),
        }
    }
}

impl From<Spoilt> for Refusal {
    ghost from_gives = { λ spoilt own. own ≡ OtherMemory };

    fn from(_: Spoilt) -> Refusal {
        Refusal::OtherMemory
    }
}

// A call that was given no line.
impl From<Refusal> for Fault {
    ghost from_gives = { λ refusal fault. fault ≡ at 0 refusal };

    fn from(refusal: Refusal) -> Fault {
        refusal.at(0)
    }
}

// Number, layer and place.
impl From<Fault> for FaultCode {
    ghost from_gives = { λ fault code. code ≡ code_of fault };

    fn from(fault: Fault) -> FaultCode {
        FaultCode {
            // `as`, which tells the discriminant.
            number: fault.refusal as u16,
            layer: 2,
            place: fault.place,
        }
    }
}

impl fmt::Display for Refusal {
    ghost output = { λ refusal. Some (refusal_text refusal) };

    fn fmt<W: fmt::Write>(&self, f: &mut fmt::Formatter<W>) -> fmt::Result {
        f.write_str(match self {
            Refusal::LineCount => "a book has 1 to 16384 lines",
            Refusal::NoSuchLine => "there is no such line",
            Refusal::EmptyLine => "the line is empty",
            Refusal::TooMuchAsked => "too many bits or tries are asked for",
            Refusal::NoRoom => "the area is too small",
            Refusal::ShortTally => "the tally is too short",
            Refusal::OtherMemory => "lines or area are not the book's",
        })
    }
}
