//! Where a call pauses.

use std::sync::Wait;

/// Where a call pauses while it holds the lock, behind its event and before it publishes. A test waits here for another thread.
pub trait Gate: Drop {
    /// Returns when the call may go on.
    fn pause<R: Wait>(&self, rt: &R);
}

/// Returns at once.
#[derive(Drop)]
pub struct NoGate;

impl Gate for NoGate {
    fn pause<R: Wait>(&self, _rt: &R) {}
}
