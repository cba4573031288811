//! What becomes of a client's session that is there.
ghost use Rattle.std.specs.Prelude.{◌≡◌, None, OnOk, OnErr};
ghost use Rattle.std.specs.Option.{option_copied};
ghost use Rattle.capbits.specs.Refusal.{first_failing};
ghost use Rattle.sessiontab.specs.Changes.{changed_sessions, is_end, new_grants, session_change_tests};

use crate::session::Status;
use crate::table::Sessions;
use capbits::{ClientId, Refusal};
use capspec::Grants;
use std::alloc::AllocError;

/// What becomes of a client's session.
#[derive(Clone, Copy)]
pub enum SessionChange<'a> {
    /// The client ends it.
    Close,
    /// It has this status in place of the one that it had.
    Mark(Status),
    /// It has these grants in place of those that it had.
    Regrant(&'a Grants),
    /// The client is thrown out.
    Evict,
}

impl<'a> SessionChange<'a> {
    /// Whether the session ends.
    pub fn is_end(self) -> bool
        ensures { result ≡ is_end self.entry }
    {
        matches!(self, SessionChange::Close | SessionChange::Evict)
    }

    /// The grants that it has from then on, where they are others.
    pub fn new_grants(self) -> Option<&'a Grants>
        ensures { option_copied result ≡ new_grants self.entry }
    {
        if let SessionChange::Regrant(grants) = self {
            Some(grants)
        } else {
            None
        }
    }
}

impl Sessions {
    /// Why this can't become of the client's session: the first test that fails.
    pub fn change_refusal(&self, client: ClientId, change: SessionChange) -> Option<Refusal>
        ensures { result ≡ first_failing (session_change_tests self.now client.0 change.entry) }
    {
        match change {
            SessionChange::Close => self.connected_refusal(client),
            SessionChange::Mark(status) => self.mark_refusal(client, status),
            SessionChange::Regrant(_grants) => self.connected_refusal(client),
            SessionChange::Evict => self.evict_refusal(client),
        }
    }

    /// The session ends, or has another status or other grants; its tests were passed before. An eviction takes memory, and so
    /// do grants, which are copied: for want of it nothing changes.
    pub fn change_tested(
        &mut self,
        client: ClientId,
        change: SessionChange,
    ) -> Result<(), AllocError>
        requires passed { first_failing (session_change_tests self.old client.0 change) ≡ None }
        ensures ok { OnOk result (self.new ≡ changed_sessions self.old client.0 change.entry) }
        ensures err { OnErr result (self.new ≡ self.old) }
    {
        match change {
            SessionChange::Close => self.close_session_tested(client),
            SessionChange::Mark(status) => self.mark_tested(client, status),
            SessionChange::Regrant(grants) => self.regrant_tested(client, grants.copy()?),
            SessionChange::Evict => self.evict_tested(client)?,
        }
        Ok(())
    }
}
