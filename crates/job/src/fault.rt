// Why a record is refused: by itself, by its place in the job, or by what a layer below found, which is carried whole.
ghost use Rattle.std.specs.Prelude.{◌≡◌};
ghost use Rattle.job.specs.Faults.{code_of};
ghost use Rattle.job.specs.declared.fault.Fault.TheVariants as fault_of;

use kinds::FaultCode;

#[derive(Clone, Copy, Debug, PartialEq, Eq)]
pub enum Fault {
    // The record by itself.
    Record(records::Refusal),
    // It comes where it may not.
    OutOfOrder,
    // Its packet, or the rule of its row.
    Routed(routed::Fault),
    // Its frame, or the rule of its row.
    Bridge(bridge::Fault),
    // The call on the book or the table.
    Table(table::Fault),
}

// Number, layer and place.
impl From<Fault> for FaultCode {
    ghost from_gives = { λ fault code. code ≡ code_of fault };

    fn from(fault: Fault) -> FaultCode {
        match fault {
            Fault::Record(refusal) => FaultCode::from(refusal),
            Fault::OutOfOrder => FaultCode {
                number: 19,
                layer: 3,
                place: 0,
            },
            Fault::Routed(fault) => FaultCode::from(fault),
            Fault::Bridge(fault) => FaultCode::from(fault),
            Fault::Table(fault) => FaultCode::from(fault),
        }
    }
}

impl From<records::Refusal> for Fault {
    ghost from_gives = { λ refusal own. own ≡ fault_of.Record refusal };

    fn from(refusal: records::Refusal) -> Fault {
        Fault::Record(refusal)
    }
}

impl From<routed::Fault> for Fault {
    ghost from_gives = { λ fault own. own ≡ fault_of.Routed fault };

    fn from(fault: routed::Fault) -> Fault {
        Fault::Routed(fault)
    }
}

impl From<bridge::Fault> for Fault {
    ghost from_gives = { λ fault own. own ≡ fault_of.Bridge fault };

    fn from(fault: bridge::Fault) -> Fault {
        Fault::Bridge(fault)
    }
}

impl From<table::Fault> for Fault {
    ghost from_gives = { λ fault own. own ≡ fault_of.Table fault };

    fn from(fault: table::Fault) -> Fault {
        Fault::Table(fault)
    }
}
