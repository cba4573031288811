//! Why the program did not do what it was asked for.

use capspec::{SpecFault, SpecFaultKind};
use capstep::stop::Stop;
use cli::ServeFault;
use queries::QuestionFault;
use std::alloc::{AllocError, AllocFailed};
use texts::ScriptFault;

/// Why a piece of work gave no sum, or a job no digest.
#[derive(Clone, Copy)]
pub enum Fault {
    /// The words are not understood.
    Usage,
    /// The words are three, and name no job.
    NoJob,
    /// The text is no script, or none of grants that can be judged by.
    Text,
    /// The core is not what it was before it took no event.
    Changed,
    /// An event was asked for again and again, and was never made or never published.
    InVain,
    /// The history is full.
    Full,
    /// No memory was left.
    NoMemory,
    /// The text could not be read.
    ReadFailed,
    /// What there is to write could not be written.
    WriteFailed,
}

impl Fault {
    /// What is said of it.
    pub(crate) fn text(self) -> &'static str {
        match self {
            Fault::Usage =>
                "wanted is one of: verdict N, parse N, explain READERS INODES N, locked READERS INODES N, retry, publish [ROWS], a WORKLOAD with COUNT and SEED, or play FILE..",
            Fault::NoJob => "WORKLOAD, COUNT and SEED are wanted",
            Fault::Text => "the text can't be used",
            Fault::Changed => "the core changed, where it found no memory",
            Fault::InVain => "an event was asked for in vain",
            Fault::Full => "the history is full",
            Fault::NoMemory => "no memory",
            Fault::ReadFailed => "read failed",
            Fault::WriteFailed => "write failed",
        }
    }
}

impl From<AllocError> for Fault {
    fn from(_: AllocError) -> Self {
        Fault::NoMemory
    }
}

impl<T: Drop> From<AllocFailed<T>> for Fault {
    fn from(_: AllocFailed<T>) -> Self {
        Fault::NoMemory
    }
}

impl From<Stop> for Fault {
    fn from(stop: Stop) -> Self {
        match stop {
            Stop::NoMemory => Fault::NoMemory,
            Stop::Full => Fault::Full,
        }
    }
}

impl From<ScriptFault> for Fault {
    fn from(fault: ScriptFault) -> Self {
        match fault {
            ScriptFault::NoMemory => Fault::NoMemory,
            ScriptFault::ReadFault => Fault::ReadFailed,
            ScriptFault::WriteFault => Fault::WriteFailed,
            ScriptFault::LineFault { .. } => Fault::Text,
        }
    }
}

impl From<ServeFault> for Fault {
    fn from(fault: ServeFault) -> Self {
        match fault {
            ServeFault::Script(fault) => Fault::from(fault),
            ServeFault::HistoryFull => Fault::Full,
            ServeFault::NoThread => Fault::NoMemory,
            ServeFault::Clients { .. } => Fault::Text,
        }
    }
}

// Where only memory was missing, the grants are not to blame.
impl From<SpecFault> for Fault {
    fn from(fault: SpecFault) -> Self {
        match fault.kind {
            SpecFaultKind::NoMemory => Fault::NoMemory,
            _ => Fault::Text,
        }
    }
}

impl From<QuestionFault> for Fault {
    fn from(fault: QuestionFault) -> Self {
        match fault {
            QuestionFault::NoMemory => Fault::NoMemory,
            QuestionFault::Grants(fault) => Fault::from(fault),
            QuestionFault::BadValue(_) => Fault::Text,
        }
    }
}
