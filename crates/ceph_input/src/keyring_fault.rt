//! Why a keyring gives no grants.

use std::alloc::{AllocError, AllocFailed};
use std::fmt;
use std::fmt::Display;

/// Why a keyring gives no grants of an entity.
#[derive(Clone, Copy)]
pub enum KeyringFault {
    /// No line is the entity's name between brackets.
    NoEntity,
    /// The entity's section has no line that begins with `caps mds = `.
    NoCaps,
    /// What stands behind that is not one text in double quotes.
    NotQuoted,
    /// No memory was left.
    NoMemory,
}

impl Display for KeyringFault {
    fn fmt<W: fmt::Write>(&self, f: &mut fmt::Formatter<W>) -> fmt::Result {
        f.write_str(match self {
            KeyringFault::NoEntity => "NoEntity",
            KeyringFault::NoCaps => "NoCaps",
            KeyringFault::NotQuoted => "NotQuoted",
            KeyringFault::NoMemory => "no memory",
        })
    }
}

impl From<AllocError> for KeyringFault {
    ghost use Rattle.std.specs.Prelude.{◌≡◌};
    ghost use Rattle.ceph_input.specs.declared.keyring_fault.KeyringFault.TheVariants as faults;

    ghost from_gives = { λ _ fault. fault ≡ faults.NoMemory };

    fn from(_: AllocError) -> Self {
        KeyringFault::NoMemory
    }
}

impl<T: Drop> From<AllocFailed<T>> for KeyringFault {
    ghost use Rattle.std.specs.Prelude.{◌≡◌};
    ghost use Rattle.ceph_input.specs.declared.keyring_fault.KeyringFault.TheVariants as faults;

    ghost from_gives = { λ _ fault. fault ≡ faults.NoMemory };

    fn from(_: AllocFailed<T>) -> Self {
        KeyringFault::NoMemory
    }
}
