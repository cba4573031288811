//! The session of one client.

ghost use Rattle.std.specs.Prelude.{◌≡◌, Some, IfOk};
ghost use Rattle.sessiontab.specs.Tests.{is_open};

use capbits::Caller;
use capspec::KeptGrants;
use std::alloc::AllocError;
use thiserror::Error;

/// Whether a client is still heard of.
#[derive(Clone, Copy, Debug, PartialEq, Eq)]
pub enum Status {
    /// The client renews its session, and its requests are taken.
    Open,
    /// The client was not heard of in time. It keeps its caps, and little is taken from it until its session is renewed.
    Stale,
}

impl Status {
    /// Whether the client's requests are taken, and what it wants counts.
    pub fn is_open(self) -> bool
        ensures { result ≡ is_open (Some self) }
    {
        matches!(self, Status::Open)
    }
}

/// A client has no session that could be changed.
#[derive(Clone, Copy, Debug, Error)]
#[error("NoSession")]
pub struct NoSession;

/// What the server keeps of a client while it is connected.
#[derive(Debug)]
pub struct Session {
    /// Whether the client is still heard of.
    pub status: Status,
    /// The user for whom the client asks.
    pub caller: Caller,
    /// What the client may do, and where.
    pub grants: KeptGrants,
}

// Not derived: so the proof of a function that drops one has a single call there.
impl Drop for Session {
    fn drop(self) {
        let Session {
            status: _,
            caller: _,
            grants: _,
        } = self;
    }
}

impl Session {
    // A copy of the session.
    pub(crate) fn copy(&self) -> Result<Session, AllocError>
        ensures { IfOk result (λ copy. copy ≡ self.now) }
    {
        let grants = self.grants.grants().copy()?;
        Ok(Session {
            status: self.status,
            caller: self.caller.copy(),
            grants: KeptGrants::new(grants),
        })
    }
}
