//! Why a line gave no event.

use capspec::{SpecFault, SpecFaultKind};
use std::alloc::AllocError;
use texts::LineFault;

// Why a line gave no event.
#[derive(Clone, Copy)]
pub(crate) enum Refused {
    // The line is wrong.
    Wrong(LineFault),
    // The line says an event, but no memory was left for it.
    NoMemory,
}

impl From<LineFault> for Refused {
    ghost use Rattle.std.specs.Prelude.{◌≡◌};
    ghost use Rattle.capexplain.specs.declared.refused.Refused.TheVariants.{Wrong};

    ghost from_gives = { λ kind refused. refused ≡ Wrong kind };

    fn from(kind: LineFault) -> Self {
        Refused::Wrong(kind)
    }
}

// Where only memory was missing, the grants are not to blame.
impl From<SpecFault> for Refused {
    ghost use Rattle.capexplain.specs.Faults.{IsRefusedFor};

    ghost from_gives = { IsRefusedFor };

    fn from(fault: SpecFault) -> Self {
        match fault.kind {
            SpecFaultKind::NoMemory => Refused::NoMemory,
            _ => Refused::Wrong(LineFault::Grants(fault)),
        }
    }
}

impl From<AllocError> for Refused {
    ghost use Rattle.std.specs.Prelude.{◌≡◌};
    ghost use Rattle.capexplain.specs.declared.refused.Refused.TheVariants as refusals;

    ghost from_gives = { λ _ refused. refused ≡ refusals.NoMemory };

    fn from(_missing: AllocError) -> Self {
        Refused::NoMemory
    }
}
