//! The sessions, by client.
ghost use Rattle.std.specs.Prelude.{◌≡◌, IsTrue, IfOk, OnOk, OnErr};
ghost use Rattle.std.specs.Bool.{OnFalse};
ghost use Rattle.std.specs.Option.{option_copied};
ghost use Rattle.std.specs.FinMap as map;
ghost use Rattle.sessiontab.specs.Connected.{change_session};

use crate::session::{Session, Status};
use capbits::{ClientId, Numbered};
use capspec::{Grants, KeptGrants};
use std::alloc::{AllocError, Global};
use std::marker::Model;

/// The session of each client that is connected.
#[derive(Debug)]
pub struct Connected {
    // By the client's number.
    sessions: Numbered<Session>,
    alloc: Global,
}

// Not derived: so the proof of a function that drops one has a single call there.
impl Drop for Connected {
    fn drop(self) {
        let Connected {
            sessions: _,
            alloc: _,
        } = self;
    }
}

impl Model for Connected {
    ghost use Rattle.sessiontab.specs.Connected.{SessionMap, session_map_code};

    ghost Value = { SessionMap };

    ghost coded = { session_map_code };

    ghost view = { λ c. c.sessions };
}

impl Connected {
    /// Nobody is connected.
    pub fn new(alloc: Global) -> Connected
        ensures { result ≡ map.empty }
    {
        Connected {
            sessions: Numbered::new(alloc),
            alloc,
        }
    }

    /// A copy of the sessions.
    pub fn copy(&self) -> Result<Connected, AllocError>
        ensures { IfOk result (λ copy. copy ≡ self.now) }
    {
        let mut made = Numbered::new(self.alloc);
        for client in self.sessions.keys() {
            if let Some(session) = self.sessions.get(*client) {
                made.insert(*client, session.copy()?)?;
            }
        }
        Ok(Connected {
            sessions: made,
            alloc: self.alloc,
        })
    }

    // How many clients are connected.
    pub(crate) fn len(&self) -> usize
        ensures { result ≡ map.len self.now }
    {
        self.sessions.len()
    }

    /// The client's session, where it has one.
    pub fn get(&self, client: ClientId) -> Option<&Session>
        ensures { option_copied result ≡ map.get self.now client.0 }
    {
        self.sessions.get(u64::from(client.0))
    }

    /// Gives the client this session, in place of the one that it may have.
    pub fn insert(&mut self, client: ClientId, session: Session) -> Result<(), AllocError>
        ensures ok { OnOk result (self.new ≡ map.insert self.old client.0 session) }
        ensures err { OnErr result (self.new ≡ self.old) }
    {
        self.sessions.insert(u64::from(client.0), session)
    }

    /// Ends the client's session, and answers whether it had one.
    pub fn remove(&mut self, client: ClientId) -> bool
        ensures had { result ≡ map.contains_key self.old client.0 }
        ensures ended { self.new ≡ map.remove self.old client.0 }
        ensures unchanged { OnFalse result (self.new ≡ self.old) }
    {
        match self.get(client) {
            Some(_session) => {
                self.sessions.remove(u64::from(client.0));
                true
            }
            None => false,
        }
    }

    // Gives the client's session this status, where it has one.
    pub(crate) fn set_status(&mut self, client: ClientId, status: Status)
        ensures { self.new ≡ change_session (λ session. record session { status = status }) self.old client.0 }
    {
        if let Some(session) = self.sessions.get_mut(u64::from(client.0)) {
            session.status = status;
        }
    }

    /// Gives the client's session these grants, where it has one.
    pub fn set_grants(&mut self, client: ClientId, grants: Grants)
        ensures { self.new ≡ change_session (λ session. record session { grants = grants }) self.old client.0 }
    {
        if let Some(session) = self.sessions.get_mut(u64::from(client.0)) {
            session.grants = KeptGrants::new(grants);
        }
    }
}
