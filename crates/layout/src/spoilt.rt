// What a look into an area finds wrong with its numbers.
ghost use Rattle.std.specs.Prelude.{◌≡◌, Some};
ghost use Rattle.layout.specs.Faults.{code_of, spoilt_text};

use kinds::FaultCode;
use std::fmt;

#[derive(Clone, Copy, Debug, PartialEq, Eq)]
pub enum Spoilt {
    // A block's start lies above the next, or the block past the area.
    Bounds,
    // An entry names no filled line.
    Entry,
}

// Number, layer and place, alike for both.
impl From<Spoilt> for FaultCode {
    ghost from_gives = { λ spoilt code. code ≡ code_of spoilt };

    fn from(_: Spoilt) -> FaultCode {
        FaultCode {
            number: 15,
            layer: 2,
            place: 0,
        }
    }
}

impl fmt::Display for Spoilt {
    ghost output = { λ spoilt. Some (spoilt_text spoilt) };

    fn fmt<W: fmt::Write>(&self, f: &mut fmt::Formatter<W>) -> fmt::Result {
        f.write_str(match self {
            Spoilt::Bounds => "the bounds of a block are bad",
            Spoilt::Entry => "an entry names no filled line",
        })
    }
}
