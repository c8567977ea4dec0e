// Why a table is not counted or not laid.
ghost use Rattle.std.specs.Prelude.{◌≡◌, Some};
ghost use Rattle.kinds.specs.Checks.{checked};
ghost use Rattle.blocks.specs.Counts.{length_checks};
ghost use Rattle.blocks.specs.Faults.{code_of, refusal_text};

use kinds::FaultCode;
use std::fmt;

// The most lines that a table is made of.
const MOST_LINES: usize = 16384;

// Each by its number.
#[derive(Clone, Copy, Debug, PartialEq, Eq)]
pub enum Refusal {
    // More than 16,384 lines.
    TooManyLines = 9,
    // The table is larger than the area.
    NoRoom = 13,
    // The tally has fewer numbers than there are cells.
    ShortTally = 14,
}

// Number, layer and place.
impl From<Refusal> for FaultCode {
    ghost from_gives = { λ refusal code. code ≡ code_of refusal };

    fn from(refusal: Refusal) -> FaultCode {
        FaultCode {
            // `as`, which tells the discriminant.
            number: refusal as u16,
            layer: 2,
            place: 0,
        }
    }
}

impl fmt::Display for Refusal {
    ghost output = { λ refusal. Some (refusal_text refusal) };

    fn fmt<W: fmt::Write>(&self, f: &mut fmt::Formatter<W>) -> fmt::Result {
        f.write_str(match self {
            Refusal::TooManyLines => "there are too many lines",
            Refusal::ShortTally => "the tally is too short",
            Refusal::NoRoom => "the area is too small",
        })
    }
}

// What is checked before anything is counted: how many lines there are, and whether the tally has a number for each of so many cells.
pub fn ready(lines: usize, cells: usize, tally: usize) -> Result<(), Refusal>
    ensures { result ≡ checked (length_checks lines cells tally) tt }
{
    if lines > MOST_LINES {
        return Err(Refusal::TooManyLines);
    }
    if tally < cells {
        return Err(Refusal::ShortTally);
    }
    Ok(())
}
