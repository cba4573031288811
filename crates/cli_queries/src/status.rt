//! How a command ends: its status, and what is said of a fault.
ghost use Rattle.std.specs.Prelude.{◌≡◌, ◌⊎◌};
ghost use Rattle.cli_queries.specs.Logging.{status_of};

use std::fmt::Display;
use std::io::Write;

/// The work was done, or the help was shown. A denial is an answer.
pub const DONE: u8 = 0;

/// A value is bad, or memory or the output failed.
pub const FAILED: u8 = 1;

/// The command line is wrong.
pub const USAGE: u8 = 2;

/// No grant allows what is asked, where that is answered by the status alone.
pub const DENIED: u8 = 3;

/// Something was found in grants that were looked over or on a cluster, or something could not be judged there or in a log. The same status as `DENIED`.
pub const FOUND: u8 = 3;

/// The status where each of what is told could be judged, or something could not.
pub(crate) fn judged_status(is_judged: bool) -> u8
    ensures judged { result ≡ status_of is_judged }
    ensures either { (result ≡ DONE) ⊎ (result ≡ FOUND) }
{
    if is_judged { DONE } else { FOUND }
}

/// Writes the fault as a line, and returns its status.
pub fn report(fault: impl Display + Copy, faults: &mut impl Write) -> u8
    ensures { result ≡ FAILED }
{
    let _ = writeln!(faults, "capd: {fault}");
    FAILED
}
