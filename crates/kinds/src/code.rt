// How a fault is told outside.
ghost use Rattle.std.specs.Prelude.{Some};

use std::fmt;

// The number of the refusal, the layer that refused, and the place that it speaks of.
// Numbers, by a rule of the project: this is what other programs are told; inside, faults are enums.
#[derive(Clone, Copy, Debug, PartialEq, Eq)]
pub struct FaultCode {
    pub number: u16,
    pub layer: u16,
    pub place: usize,
}

// As a program prints it behind the word `refused`.
impl fmt::Display for FaultCode {
    ghost use Rattle.kinds.specs.Codes.{code_text};

    ghost output = { λ code. Some (code_text code) };

    fn fmt<W: fmt::Write>(&self, f: &mut fmt::Formatter<W>) -> fmt::Result {
        let number = self.number;
        let layer = self.layer;
        let place = self.place;
        write!(f, "{number} layer {layer} place {place}")
    }
}
