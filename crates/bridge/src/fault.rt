// What reading a frame or a row can refuse.
ghost use Rattle.std.specs.Prelude.{◌≡◌};
ghost use Rattle.bridge.specs.Faults.{code_of};

use kinds::FaultCode;

// Each by the number of its refusal.
#[derive(Clone, Copy, Debug, PartialEq, Eq)]
pub enum Fault {
    // The frame has under fourteen bytes.
    Short = 1,
    // A value bit lies outside the mask.
    StrayBit = 6,
}

// Number, layer and place.
impl From<Fault> for FaultCode {
    ghost from_gives = { λ fault code. code ≡ code_of fault };

    fn from(fault: Fault) -> FaultCode {
        FaultCode {
            // `as`, which tells the discriminant.
            number: fault as u16,
            layer: 1,
            place: 0,
        }
    }
}
