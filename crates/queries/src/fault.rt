//! Why values ask no question.

use crate::options::Opt;
use capspec::{SpecFault, SpecFaultKind};
use std::alloc::AllocError;
use std::fmt;
use std::fmt::Display;

/// Why values ask no question.
#[derive(Clone, Copy)]
pub enum QuestionFault {
    /// The grants can't be read: this is their first fault.
    Grants(SpecFault),
    /// The value of this option, which is not `Opt::Grants`, is the first bad one.
    BadValue(Opt),
    /// Each value is good, but no memory was left for the question.
    NoMemory,
}

impl Display for QuestionFault {
    fn fmt<W: fmt::Write>(&self, f: &mut fmt::Formatter<W>) -> fmt::Result {
        match self {
            QuestionFault::Grants(fault) => write!(f, "grants: {fault}"),
            QuestionFault::BadValue(option) => write!(f, "bad value of --{option}"),
            QuestionFault::NoMemory => f.write_str("no memory"),
        }
    }
}

impl From<AllocError> for QuestionFault {
    ghost use Rattle.std.specs.Prelude.{◌≡◌};
    ghost use Rattle.queries.specs.declared.fault.QuestionFault.TheVariants as faults;

    ghost from_gives = { λ _ fault. fault ≡ faults.NoMemory };

    fn from(_: AllocError) -> Self {
        QuestionFault::NoMemory
    }
}

// Where only memory was missing, the grants are not to blame.
impl From<SpecFault> for QuestionFault {
    ghost use Rattle.queries.specs.Fault.{IsFaultOf};

    ghost from_gives = { IsFaultOf };

    fn from(refused: SpecFault) -> Self {
        match refused.kind {
            SpecFaultKind::NoMemory => QuestionFault::NoMemory,
            _ => QuestionFault::Grants(refused),
        }
    }
}
