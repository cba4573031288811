//! Why a call that takes memory was not carried out.
ghost use Rattle.std.specs.Prelude.{◌≡◌};

use crate::refusal::Refusal;
use std::alloc::AllocError;
use thiserror::Error;

/// Why a call that takes memory was not carried out. Nothing has changed. It prints as the name of the refusal, or as `NoMemory`.
#[derive(Clone, Copy, Debug, Error)]
pub enum ChangeError {
    /// A test fails, which is the first that does.
    #[error(transparent)]
    Refused(Refusal),
    /// Every test is passed, and there was no memory left.
    #[error("NoMemory")]
    NoMemory,
}

impl From<AllocError> for ChangeError {
    ghost use Rattle.capbits.specs.declared.change_error.ChangeError.TheVariants as errors;

    ghost from_gives = { λ _ error. error ≡ errors.NoMemory };

    fn from(_no_memory: AllocError) -> ChangeError {
        ChangeError::NoMemory
    }
}
