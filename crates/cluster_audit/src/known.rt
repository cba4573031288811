//! Sessions by the names that the auth list has of their clients.
ghost use Rattle.std.specs.Prelude.{◌≡◌, IfOk, map, option_map};
ghost use Rattle.cluster_audit.specs.Known.{alias_of, is_listed, key_name, known_as, name_in};

use ceph_input::{AuthList, Session};
use std::alloc::{AllocError, Global};
use std::marker::Model;

// A session, with the name that the auth list has of its client.
pub(crate) struct KnownSession {
    number: u64,
    client: Option<Vec<u8>>,
    alias: Option<Vec<u8>>,
    unchecked: bool,
}

// Not derived: so the proof of a function that drops one has a single call there.
impl Drop for KnownSession {
    fn drop(self) {
        let KnownSession {
            number: _,
            client: _,
            alias: _,
            unchecked: _,
        } = self;
    }
}

impl Model for KnownSession {
    ghost use Rattle.std.specs.Prelude.{option_map};
    ghost use Rattle.cluster_audit.specs.Known.{Known, known};

    ghost Value = { Known };

    ghost view = { λ s. known s.number (option_map (λ name. name.items) s.client) (option_map (λ id. id.items) s.alias) s.unchecked };
}

impl KnownSession {
    ghost use Rattle.std.specs.Prelude.{◌≡◌, IfOk, option_map};
    ghost use Rattle.cluster_audit.specs.Known.{known_as};

    // A session as the list knows it.
    fn read(alloc: Global, auth: &AuthList, session: &Session) -> Result<KnownSession, AllocError>
        ensures { IfOk result (λ s. s ≡ known_as auth.now session.now) }
    {
        let client = match (session.key(), session.entity()) {
            (Some(key), _) => Some(named(alloc, key.kind(), key.id())?),
            (None, Some(id)) => Some(name_in(alloc, auth, id)?),
            (None, None) => None,
        };
        let alias = match other_name(session) {
            None => None,
            Some(id) => Some(Vec::from_slice(alloc, id)?),
        };
        Ok(KnownSession {
            number: session.number(),
            client,
            alias,
            unchecked: session.is_unchecked(),
        })
    }

    // Its number, by which the tree names the client.
    pub(crate) fn number(&self) -> u64
        ensures { result ≡ self.now.number }
    {
        self.number
    }

    // The name of its client, such as `client.tenant`, if it tells one.
    pub(crate) fn client(&self) -> Option<&[u8]>
        ensures { option_map (λ name. name.now) result ≡ self.now.client }
    {
        match &self.client {
            None => None,
            Some(name) => Some(name.as_slice()),
        }
    }

    // What its client calls itself, where its key has another name.
    pub(crate) fn alias(&self) -> Option<&[u8]>
        ensures { option_map (λ id. id.now) result ≡ self.now.alias }
    {
        match &self.alias {
            None => None,
            Some(id) => Some(id.as_slice()),
        }
    }

    // Whether its client is known not to check by its grants what it changes.
    pub(crate) fn is_unchecked(&self) -> bool
        ensures { result ≡ self.now.unchecked }
    {
        self.unchecked
    }
}

// What its client calls itself, where its key has another name.
fn other_name(session: &Session) -> Option<&[u8]>
    ensures { option_map (λ id. id.now) result ≡ alias_of session.now.key session.now.entity }
{
    let id = session.entity()?;
    if session.key()?.id() == id {
        None
    } else {
        Some(id)
    }
}

// The sessions as the list knows them.
pub(crate) fn known_sessions(
    alloc: Global,
    auth: &AuthList,
    sessions: &[Session],
) -> Result<Vec<KnownSession>, AllocError>
    ensures { IfOk result (λ known. known.items ≡ map (known_as auth.now) sessions.now) }
{
    let mut known = Vec::new(alloc);
    for session in sessions {
        known.push(KnownSession::read(alloc, auth, session)?)?;
    }
    Ok(known)
}

// The name of who calls itself this, where no key is told: of a client, or of a manager where the list has such a one and no client.
fn name_in(alloc: Global, auth: &AuthList, id: &[u8]) -> Result<Vec<u8>, AllocError>
    ensures { IfOk result (λ name. name.items ≡ name_in auth.now id.now) }
{
    let client = named(alloc, b"client", id)?;
    let manager = named(alloc, b"mgr", id)?;
    if !is_listed(auth, client.as_slice()) && is_listed(auth, manager.as_slice()) {
        Ok(manager)
    } else {
        Ok(client)
    }
}

// The name of a key of this kind.
fn named(alloc: Global, kind: &[u8], id: &[u8]) -> Result<Vec<u8>, AllocError>
    ensures { IfOk result (λ name. name.items ≡ key_name kind.now id.now) }
{
    let mut name = Vec::from_slice(alloc, kind)?;
    name.push(b'.')?;
    name.extend_from_slice(id)?;
    Ok(name)
}

fn is_listed(auth: &AuthList, name: &[u8]) -> bool
    ensures { result ≡ is_listed auth.now name.now }
{
    auth.find(name).is_some()
}
