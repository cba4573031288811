//! Why the sessions of a cluster can't be read.

use std::alloc::{AllocError, AllocFailed};
use std::fmt;
use std::fmt::Display;

/// Why a text is no list of sessions.
#[derive(Clone, Copy)]
pub enum ClusterFault {
    /// The text is no JSON.
    NotJson {
        /// The line at which the JSON reader stopped, from 1.
        line: usize,
        /// The byte of that line.
        column: usize,
    },
    /// The JSON is no list.
    NoList,
    /// An item of the list lacks what each has, or has something else in its place.
    BadItem {
        /// The number of the first such item, from 1.
        number: usize,
    },
    /// No memory was left.
    NoMemory,
}

impl Display for ClusterFault {
    fn fmt<W: fmt::Write>(&self, f: &mut fmt::Formatter<W>) -> fmt::Result {
        match self {
            ClusterFault::NotJson { line, column } => {
                write!(f, "NotJson at line {line} column {column}")
            }
            ClusterFault::NoList => f.write_str("NoList"),
            ClusterFault::BadItem { number } => write!(f, "BadItem {number}"),
            ClusterFault::NoMemory => f.write_str("no memory"),
        }
    }
}

impl From<AllocError> for ClusterFault {
    ghost use Rattle.std.specs.Prelude.{◌≡◌};
    ghost use Rattle.ceph_input.specs.declared.cluster_fault.ClusterFault.TheVariants as faults;

    ghost from_gives = { λ _ fault. fault ≡ faults.NoMemory };

    fn from(_: AllocError) -> Self {
        ClusterFault::NoMemory
    }
}

impl<T: Drop> From<AllocFailed<T>> for ClusterFault {
    ghost use Rattle.std.specs.Prelude.{◌≡◌};
    ghost use Rattle.ceph_input.specs.declared.cluster_fault.ClusterFault.TheVariants as faults;

    ghost from_gives = { λ _ fault. fault ≡ faults.NoMemory };

    fn from(_: AllocFailed<T>) -> Self {
        ClusterFault::NoMemory
    }
}
