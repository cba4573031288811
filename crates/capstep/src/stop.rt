//! Why an event has no row.
ghost use Rattle.std.specs.Prelude.{◌≡◌};

use std::alloc::{AllocError, AllocFailed};
use thiserror::Error;

/// Why an event was not taken. Nothing has changed, and there is no row of it.
#[derive(Clone, Copy, Debug, Error)]
pub enum Stop {
    /// There was no memory left.
    #[error("NoMemory")]
    NoMemory,
    /// The history has as many rows as it may have.
    #[error("Full")]
    Full,
}

impl From<AllocError> for Stop {
    ghost use Rattle.capstep.specs.declared.stop.Stop.TheVariants as kind;

    ghost from_gives = { λ _ stop. stop ≡ kind.NoMemory };

    fn from(_refused: AllocError) -> Stop {
        Stop::NoMemory
    }
}

impl<T: Drop> From<AllocFailed<T>> for Stop {
    ghost use Rattle.capstep.specs.declared.stop.Stop.TheVariants as kind;

    ghost from_gives = { λ _ stop. stop ≡ kind.NoMemory };

    fn from(_failed: AllocFailed<T>) -> Stop {
        Stop::NoMemory
    }
}
