//! The table of sessions, with the blocklist.
ghost use Rattle.std.specs.Prelude.{◌≡◌, ◌≤◌, ◌↔◌, [], ◌∷◌, None, IsTrue, IsOk, IfOk, IfErr, OnOk, OnErr};
ghost use Rattle.std.specs.Option.{option_copied, option_map};
ghost use Rattle.std.specs.Result.{result_err};
ghost use Rattle.std.specs.FinMap as map;
ghost use Rattle.std.specs.FinSet as set;

use crate::blocklist::Blocklist;
use crate::connected::Connected;
use crate::session::{NoSession, Session, Status};
use arrayvec::ArrayVec;
use capbits::{Caller, ChangeError, ClientId, Refusal};
use capspec::{Grants, KeptGrants};
use std::alloc::{AllocError, Global};
use std::marker::Model;

/// How many clients may be connected at a time, by open and stale sessions together.
pub const MAX_SESSIONS: usize = 64;

/// How many clients the blocklist may have.
pub const MAX_BLOCKED: usize = 1024;

/// The sessions of the connected clients, at most `MAX_SESSIONS`, and the blocklist of the clients that were thrown
/// out, at most `MAX_BLOCKED`. No client is in both.
#[derive(Debug)]
pub struct Sessions {
    connected: Connected,
    blocklist: Blocklist,
}

impl Model for Sessions {
    ghost use Rattle.sessiontab.specs.Table.{IsSound, SessionTable, table_code};

    ghost Value = { SessionTable };

    ghost coded = { table_code };

    ghost view = { λ s. record { sessions = s.connected; blocked = s.blocklist } };

    ghost invariant = { λ s. IsSound (record { sessions = s.connected; blocked = s.blocklist }) };
}

// Not derived: so the proof of a function that drops one has a single call there, and no step for each part.
impl Drop for Sessions {
    fn drop(self) {
        let Sessions {
            connected: _connected,
            blocklist: _blocklist,
        } = self;
    }
}

impl Sessions {
    ghost use Rattle.sessiontab.specs.Table.{IsSound};
    ghost use Rattle.capbits.specs.Refusal.{first_failing, refusal_in};
    ghost use Rattle.sessiontab.specs.Calls.{has_session, status_of, with_evicted, with_grants, with_session, with_status, without_blocked, without_session};
    ghost use Rattle.sessiontab.specs.Tests.{blocked_test, connected_test, evict_tests, mark_tests, new_session_tests, session_tests, stale_tests};
    ghost use Rattle.sessiontab.specs.declared.session.Status.TheVariants.{Open, Stale};

    /// Nobody is connected, and nobody was thrown out.
    pub fn new(alloc: Global) -> Result<Sessions, AllocError>
        ensures { IfOk result (λ sessions. sessions ≡ record { sessions = map.empty; blocked = set.empty }) }
    {
        Ok(Sessions {
            connected: Connected::new(alloc),
            blocklist: Blocklist::new(alloc),
        })
    }

    // ---- what would be refused

    /// Why a client that needs an open session is refused: it has no session, or a stale one.
    pub fn session_refusal(&self, client: ClientId) -> Option<Refusal>
        ensures { result ≡ first_failing (session_tests self.now client.0) }
    {
        match self.status(client) {
            None => Some(Refusal::NoSession),
            Some(status) if status.is_open() => None,
            Some(_stale) => Some(Refusal::SessionStale),
        }
    }

    /// Why what needs a session, open or stale, is refused: the client has none. So no session of it can be ended.
    pub fn connected_refusal(&self, client: ClientId) -> Option<Refusal>
        ensures { result ≡ first_failing (connected_test self.now client.0 ∷ []) }
    {
        match self.status(client) {
            None => Some(Refusal::NoSession),
            Some(_status) => None,
        }
    }

    /// Why a client's session can't be renewed: it has none, or an open one.
    pub fn renew_refusal(&self, client: ClientId) -> Option<Refusal>
        ensures { result ≡ first_failing (stale_tests self.now client.0) }
    {
        match self.status(client) {
            None => Some(Refusal::NoSession),
            Some(status) if status.is_open() => Some(Refusal::NotStale),
            Some(_stale) => None,
        }
    }

    /// Why a client's session can't be marked so: the client has none, or it is open, or stale, already.
    pub fn mark_refusal(&self, client: ClientId, status: Status) -> Option<Refusal>
        ensures { result ≡ first_failing (mark_tests self.now client.0 status) }
    {
        if status.is_open() {
            self.renew_refusal(client)
        } else {
            self.session_refusal(client)
        }
    }

    /// Why a client can't have a new session.
    pub fn open_refusal(&self, client: ClientId) -> Option<Refusal>
        ensures { result ≡ first_failing (new_session_tests self.now client.0) }
    {
        if self.blocklist.contains(client) {
            return Some(Refusal::Blocklisted);
        }
        if self.connected.get(client).is_some() {
            return Some(Refusal::SessionOpen);
        }
        if self.connected.len() >= MAX_SESSIONS {
            return Some(Refusal::Limit);
        }
        None
    }

    /// Why a client can't be thrown out.
    pub fn evict_refusal(&self, client: ClientId) -> Option<Refusal>
        ensures { result ≡ first_failing (evict_tests self.now client.0) }
    {
        if self.connected.get(client).is_none() {
            return Some(Refusal::NoSession);
        }
        if self.blocklist.len() >= MAX_BLOCKED {
            return Some(Refusal::Limit);
        }
        None
    }

    /// Why a client can't be let in again: it is not on the blocklist.
    pub fn unblock_refusal(&self, client: ClientId) -> Option<Refusal>
        ensures { result ≡ first_failing (blocked_test self.now client.0 ∷ []) }
    {
        if self.blocklist.contains(client) {
            None
        } else {
            Some(Refusal::NotBlocked)
        }
    }

    // ---- changes that are refused where a test fails

    /// Opens a session for a client. It is refused as Blocklisted, as SessionOpen where the client has a session, or as Limit.
    /// The caller and the grants of one that is not opened are dropped.
    pub fn open_session(
        &mut self,
        client: ClientId,
        caller: Caller,
        grants: Grants,
    ) -> Result<(), ChangeError>
        ensures refused { refusal_in result ≡ first_failing (new_session_tests self.old client.0) }
        ensures ok { OnOk result (self.new ≡ with_session self.old client.0 caller grants) }
        ensures err { OnErr result (self.new ≡ self.old) }
    {
        if let Some(refusal) = self.open_refusal(client) {
            return Err(ChangeError::Refused(refusal));
        }
        self.open_session_tested(client, caller, grants)?;
        Ok(())
    }

    /// Ends a client's session, open or stale. It is refused as NoSession.
    pub fn close_session(&mut self, client: ClientId) -> Result<(), Refusal>
        ensures refused { result_err result ≡ first_failing (connected_test self.old client.0 ∷ []) }
        ensures ok { OnOk result (self.new ≡ without_session self.old client.0) }
        ensures err { OnErr result (self.new ≡ self.old) }
    {
        if let Some(refusal) = self.connected_refusal(client) {
            return Err(refusal);
        }
        self.close_session_tested(client);
        Ok(())
    }

    /// Marks a client's open session as stale. It is refused as NoSession, or as SessionStale.
    pub fn mark_stale(&mut self, client: ClientId) -> Result<(), Refusal>
        ensures refused { result_err result ≡ first_failing (session_tests self.old client.0) }
        ensures ok { OnOk result (self.new ≡ with_status self.old client.0 Stale) }
        ensures err { OnErr result (self.new ≡ self.old) }
    {
        if let Some(refusal) = self.session_refusal(client) {
            return Err(refusal);
        }
        self.mark_tested(client, Status::Stale);
        Ok(())
    }

    /// Marks a client's stale session as open again. It is refused as NoSession, or as NotStale.
    pub fn renew(&mut self, client: ClientId) -> Result<(), Refusal>
        ensures refused { result_err result ≡ first_failing (stale_tests self.old client.0) }
        ensures ok { OnOk result (self.new ≡ with_status self.old client.0 Open) }
        ensures err { OnErr result (self.new ≡ self.old) }
    {
        if let Some(refusal) = self.renew_refusal(client) {
            return Err(refusal);
        }
        self.mark_tested(client, Status::Open);
        Ok(())
    }

    /// Gives a client's session, open or stale, other grants. Where the client has none, the grants are given back.
    pub fn regrant(&mut self, client: ClientId, grants: Grants) -> Result<(), (NoSession, Grants)>
        ensures which { IsOk result ↔ IsTrue (has_session self.old client.0) }
        ensures ok { OnOk result (self.new ≡ with_grants self.old client.0 grants) }
        ensures back { IfErr result (λ refused. refused.1 ≡ grants) }
        ensures err { OnErr result (self.new ≡ self.old) }
    {
        if self.status(client).is_none() {
            return Err((NoSession, grants));
        }
        self.regrant_tested(client, grants);
        Ok(())
    }

    /// Throws a client out: ends its session, open or stale, and puts it on the blocklist. It is refused as NoSession, or as Limit.
    pub fn evict(&mut self, client: ClientId) -> Result<(), ChangeError>
        ensures refused { refusal_in result ≡ first_failing (evict_tests self.old client.0) }
        ensures ok { OnOk result (self.new ≡ with_evicted self.old client.0) }
        ensures err { OnErr result (self.new ≡ self.old) }
    {
        if let Some(refusal) = self.evict_refusal(client) {
            return Err(ChangeError::Refused(refusal));
        }
        self.evict_tested(client)?;
        Ok(())
    }

    /// Takes a client off the blocklist. It is refused as NotBlocked.
    pub fn unblock(&mut self, client: ClientId) -> Result<(), Refusal>
        ensures refused { result_err result ≡ first_failing (blocked_test self.old client.0 ∷ []) }
        ensures ok { OnOk result (self.new ≡ without_blocked self.old client.0) }
        ensures err { OnErr result (self.new ≡ self.old) }
    {
        if let Some(refusal) = self.unblock_refusal(client) {
            return Err(refusal);
        }
        self.unblock_tested(client);
        Ok(())
    }

    // ---- the same, whose tests were passed before

    /// Opens a session for a client. For want of memory nothing changes, and the caller and the grants are dropped.
    pub fn open_session_tested(
        &mut self,
        client: ClientId,
        caller: Caller,
        grants: Grants,
    ) -> Result<(), AllocError>
        requires passed { first_failing (new_session_tests self.old client.0) ≡ None }
        ensures ok { OnOk result (self.new ≡ with_session self.old client.0 caller grants) }
        ensures err { OnErr result (self.new ≡ self.old) }
    {
        let session = Session {
            status: Status::Open,
            caller,
            grants: KeptGrants::new(grants),
        };
        self.connected.insert(client, session)
    }

    /// Ends a client's session, open or stale.
    pub fn close_session_tested(&mut self, client: ClientId)
        requires passed { first_failing (connected_test self.old client.0 ∷ []) ≡ None }
        ensures { self.new ≡ without_session self.old client.0 }
    {
        self.connected.remove(client);
    }

    /// Gives a client's session, open or stale, this status. Where the client has none, nothing happens.
    pub fn mark_tested(&mut self, client: ClientId, status: Status)
        ensures { self.new ≡ with_status self.old client.0 status }
    {
        self.connected.set_status(client, status);
    }

    /// Gives a client's session, open or stale, other grants. Where the client has none, nothing happens.
    pub fn regrant_tested(&mut self, client: ClientId, grants: Grants)
        ensures { self.new ≡ with_grants self.old client.0 grants }
    {
        self.connected.set_grants(client, grants);
    }

    /// Throws a client out: ends its session, open or stale, and puts it on the blocklist. For want of memory nothing changes.
    pub fn evict_tested(&mut self, client: ClientId) -> Result<(), AllocError>
        requires passed { first_failing (evict_tests self.old client.0) ≡ None }
        ensures ok { OnOk result (self.new ≡ with_evicted self.old client.0) }
        ensures err { OnErr result (self.new ≡ self.old) }
    {
        self.blocklist.insert(client)?;
        let _had = self.connected.remove(client);
        Ok(())
    }

    /// Takes a client off the blocklist.
    pub fn unblock_tested(&mut self, client: ClientId)
        requires passed { first_failing (blocked_test self.old client.0 ∷ []) ≡ None }
        ensures { self.new ≡ without_blocked self.old client.0 }
    {
        self.blocklist.remove(client);
    }

    /// The sessions of the connected clients.
    pub fn connected(&self) -> &Connected
        ensures { result.now ≡ self.now.sessions }
    {
        &self.connected
    }

    /// An empty list with room for the clients of all sessions.
    pub fn room_for_clients(&self) -> ArrayVec<u32, MAX_SESSIONS>
        ensures empty { result.items ≡ [] }
        ensures few { map.len self.now.sessions ≤ MAX_SESSIONS }
    {
        // A table's limits are known to whoever has its parts.
        let _ = &self.connected;
        ArrayVec::new()
    }

    /// Whether the client's session is open or stale; none where it has no session.
    pub fn status(&self, client: ClientId) -> Option<Status>
        ensures status { result ≡ status_of self.now client.0 }
        ensures sound { IsSound self.now }
    {
        let session = self.connected.get(client)?;
        Some(session.status)
    }

    /// Whether the client is on the blocklist.
    pub fn is_blocked(&self, client: ClientId) -> bool
        ensures { result ≡ set.contains self.now.blocked client.0 }
    {
        self.blocklist.contains(client)
    }

    /// The grants of a client, where it has a session.
    pub fn grants_of(&self, client: ClientId) -> Option<&Grants>
        ensures { option_copied result ≡ option_map (λ s. s.grants) (map.get self.now.sessions client.0) }
    {
        let session = self.connected.get(client)?;
        Some(session.grants.grants())
    }

    /// The session of a client, where it has one.
    pub fn session(&self, client: ClientId) -> Option<&Session>
        ensures { option_copied result ≡ map.get self.now.sessions client.0 }
    {
        self.connected.get(client)
    }

    /// The caller of a client, where it has a session.
    pub fn caller_of(&self, client: ClientId) -> Option<&Caller>
        ensures { option_copied result ≡ option_map (λ s. s.caller) (map.get self.now.sessions client.0) }
    {
        let session = self.connected.get(client)?;
        Some(&session.caller)
    }
}
