//! Why an auth list gives no grants.

use std::alloc::{AllocError, AllocFailed};
use std::fmt;
use std::fmt::Display;
use thiserror::Error;

/// Why a text is no auth list, or an auth list gives no grants of an entity.
#[derive(Clone, Copy, Debug, PartialEq, Eq, Error)]
pub enum AuthFault {
    /// The text is no JSON.
    NotJson {
        /// The line at which the JSON reader stopped, from 1.
        line: usize,
        /// The byte of that line.
        column: usize,
    },
    /// The JSON is no list, and is no object with a list at `auth_dump`.
    NoList,
    /// An item of the list is no entity: it has no text at `entity`, no object at `caps`, or something that is no text at `caps.mds`.
    NotAnEntity {
        /// The number of the first such item, from 1.
        number: usize,
    },
    /// No entity of the list has the name.
    NoEntity,
    /// The first entity of the name has no grants for the MDS.
    NoCaps,
    /// No memory was left.
    NoMemory,
}

impl Display for AuthFault {
    fn fmt<W: fmt::Write>(&self, f: &mut fmt::Formatter<W>) -> fmt::Result {
        let text = match self {
            AuthFault::NotJson { line, column } => {
                return write!(f, "NotJson at line {line} column {column}");
            }
            AuthFault::NotAnEntity { number } => return write!(f, "NotAnEntity {number}"),
            AuthFault::NoList => "NoList",
            AuthFault::NoEntity => "NoEntity",
            AuthFault::NoCaps => "NoCaps",
            AuthFault::NoMemory => "no memory",
        };
        f.write_str(text)
    }
}

impl From<AllocError> for AuthFault {
    ghost use Rattle.std.specs.Prelude.{◌≡◌};
    ghost use Rattle.ceph_input.specs.declared.auth_fault.AuthFault.TheVariants as faults;

    ghost from_gives = { λ _ fault. fault ≡ faults.NoMemory };

    fn from(_: AllocError) -> Self {
        AuthFault::NoMemory
    }
}

impl<T: Drop> From<AllocFailed<T>> for AuthFault {
    ghost use Rattle.std.specs.Prelude.{◌≡◌};
    ghost use Rattle.ceph_input.specs.declared.auth_fault.AuthFault.TheVariants as faults;

    ghost from_gives = { λ _ fault. fault ≡ faults.NoMemory };

    fn from(_: AllocFailed<T>) -> Self {
        AuthFault::NoMemory
    }
}
