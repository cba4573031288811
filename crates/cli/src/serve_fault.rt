//! Why a script was not served.
ghost use Rattle.std.specs.Prelude.{◌≡◌};
ghost use Rattle.texts.specs.declared.fault.ScriptFault.TheVariants as stops;
ghost use Rattle.cli.specs.declared.serve_fault.ServeFault.TheVariants as faults;

use capstep::stop::Stop;
use std::alloc::{AllocError, AllocFailed};
use texts::{LineFault, ScriptFault};
use thiserror::Error;

/// Why a script was not served to its end.
#[derive(Clone, Copy, Debug, Error)]
pub enum ServeFault {
    /// As where a script is run.
    #[error("{0}")]
    Script(ScriptFault),
    /// The first line of one client too many.
    #[error("line {line}: Clients")]
    Clients {
        /// The number of the line, the first being 1.
        line: u64,
    },
    /// The history has as many rows as it may have.
    #[error("history full")]
    HistoryFull,
    /// A thread was not to be had, or no memory for it. It is told as want of memory is.
    #[error("no memory")]
    NoThread,
}

impl ServeFault {
    // The line has the fault.
    pub(crate) fn of_line(line: u64, kind: LineFault) -> ServeFault
        ensures { result ≡ faults.Script (stops.LineFault line kind) }
    {
        ServeFault::Script(ScriptFault::LineFault { line, kind })
    }
}

impl From<ScriptFault> for ServeFault {
    ghost use Rattle.std.specs.Prelude.{◌≡◌};
    ghost use Rattle.cli.specs.declared.serve_fault.ServeFault.TheVariants as faults;

    ghost from_gives = { λ stopped fault. fault ≡ faults.Script stopped };

    fn from(stopped: ScriptFault) -> Self {
        ServeFault::Script(stopped)
    }
}

impl From<Stop> for ServeFault {
    ghost use Rattle.std.specs.Prelude.{◌≡◌};
    ghost use Rattle.cli.specs.ServeFaults.{fault_of};

    ghost from_gives = { λ stop fault. fault ≡ fault_of stop };

    fn from(stop: Stop) -> Self {
        match stop {
            Stop::NoMemory => ServeFault::Script(ScriptFault::NoMemory),
            Stop::Full => ServeFault::HistoryFull,
        }
    }
}

impl From<AllocError> for ServeFault {
    ghost use Rattle.std.specs.Prelude.{◌≡◌};
    ghost use Rattle.texts.specs.declared.fault.ScriptFault.TheVariants as stops;
    ghost use Rattle.cli.specs.declared.serve_fault.ServeFault.TheVariants as faults;

    ghost from_gives = { λ _ fault. fault ≡ faults.Script stops.NoMemory };

    fn from(_: AllocError) -> Self {
        ServeFault::Script(ScriptFault::NoMemory)
    }
}

impl<T: Drop> From<AllocFailed<T>> for ServeFault {
    ghost use Rattle.std.specs.Prelude.{◌≡◌};
    ghost use Rattle.texts.specs.declared.fault.ScriptFault.TheVariants as stops;
    ghost use Rattle.cli.specs.declared.serve_fault.ServeFault.TheVariants as faults;

    ghost from_gives = { λ _ fault. fault ≡ faults.Script stops.NoMemory };

    fn from(_: AllocFailed<T>) -> Self {
        ServeFault::Script(ScriptFault::NoMemory)
    }
}
