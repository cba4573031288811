//! The sessions of clients.

ghost use Rattle.std.specs.Prelude.{◌≡◌, [], Some, IfOk, IfErr, Ok, option_map};
ghost use Rattle.serde_json.specs.View.{items_view, view};
ghost use Rattle.ceph_input.specs.Values.{IsFaultIn};
ghost use Rattle.ceph_input.specs.Sessions.{entity_in, features_in, has_bit_21, session_of, sessions_from, sessions_of, unchecked_in};

use crate::cluster_fault::ClusterFault;
use crate::key::{Key, read_key};
use crate::values::{NoJson, number_at, read_json, text_at};
use serde_json::Value;
use std::alloc::{AllocError, Global};
use std::marker::Model;

/// The session of a client.
pub struct Session {
    number: u64,
    key: Option<Key>,
    entity: Option<Vec<u8>>,
    unchecked: bool,
}

// Not derived: so the proof of a function that drops one has a single call there.
impl Drop for Session {
    fn drop(self) {
        let Session {
            number: _,
            key: _,
            entity: _,
            unchecked: _,
        } = self;
    }
}

impl Model for Session {
    ghost use Rattle.std.specs.Prelude.{option_map};
    ghost use Rattle.ceph_input.specs.Sessions.{Connected, connected};

    ghost Value = { Connected };

    ghost view = { λ s. connected s.number s.key (option_map (λ id. id.items) s.entity) s.unchecked };
}

impl Session {
    ghost use Rattle.std.specs.Prelude.{◌≡◌, IfOk, option_map};
    ghost use Rattle.ceph_input.specs.Sessions.{connected};

    // The session with this number, of a client that was let in by this key, calls itself this, and may be known not to check itself.
    fn new(
        alloc: Global,
        number: u64,
        key: Option<Key>,
        entity: Option<&str>,
        unchecked: bool,
    ) -> Result<Session, AllocError>
        ensures { IfOk result (λ s. s ≡ connected number key (option_map (λ id. id.now) entity.entry) unchecked) }
    {
        let entity = match entity {
            None => None,
            Some(id) => Some(Vec::from_slice(alloc, id.as_bytes())?),
        };
        Ok(Session {
            number,
            key,
            entity,
            unchecked,
        })
    }

    /// Its number, by which the tree names the client.
    pub fn number(&self) -> u64
        ensures { result ≡ self.now.number }
    {
        self.number
    }

    /// The key by which its client was let in, where the metadata server tells it. No client can choose another.
    pub fn key(&self) -> Option<&Key>
        ensures { option_map (λ key. key.now) result ≡ self.now.key }
    {
        self.key.as_ref()
    }

    /// What its client calls itself, such as `tenant` for the client of the key of `client.tenant`, if it tells that.
    pub fn entity(&self) -> Option<&[u8]>
        ensures { option_map (λ id. id.now) result ≡ self.now.entity }
    {
        match &self.entity {
            None => None,
            Some(id) => Some(id.as_slice()),
        }
    }

    /// Whether its client tells its features, and not that of bit 21, `CEPHFS_FEATURE_MDS_AUTH_CAPS_CHECK`: that it checks by its grants what it changes.
    pub fn is_unchecked(&self) -> bool
        ensures { result ≡ self.now.unchecked }
    {
        self.unchecked
    }
}

/// The sessions that a text lists, in its order. Each has a number at `id`; its client was let in by the key of the kind at
/// `auth_name.type_str` and the name at `auth_name.id`, calls itself what stands at `client_metadata.entity_id`, and has the
/// features at `client_metadata.client_features.feature_bits`, in hexadecimal digits. The fault is the first thing that is wrong, or want of memory.
pub fn read_sessions(alloc: Global, text: &[u8]) -> Result<Vec<Session>, ClusterFault>
    ensures ok { IfOk result (λ sessions. sessions_of text.now ≡ Some (Ok sessions.items)) }
    ensures err { IfErr result (λ fault. IsFaultIn fault (sessions_of text.now)) }
{
    let value = match read_json(alloc, text) {
        Ok(value) => value,
        Err(NoJson::At { line, column }) => return Err(ClusterFault::NotJson { line, column }),
        Err(NoJson::NoMemory) => return Err(ClusterFault::NoMemory),
    };
    let Some(items) = value.as_array() else {
        return Err(ClusterFault::NoList);
    };
    let sessions = read_each(alloc, items.as_slice())?;
    Ok(sessions)
}

// The sessions that these items are.
fn read_each(alloc: Global, items: &[Value]) -> Result<Vec<Session>, ClusterFault>
    ensures ok { IfOk result (λ sessions. sessions_from [] (items_view items.now) ≡ Ok sessions.items) }
    ensures err { IfErr result (λ fault. IsFaultIn fault (Some (sessions_from [] (items_view items.now)))) }
{
    let mut sessions = Vec::new(alloc);
    for item in items {
        let Some(session) = read_session(alloc, item)? else {
            return Err(ClusterFault::BadItem {
                number: sessions.len() + 1,
            });
        };
        sessions.push(session)?;
    }
    Ok(sessions)
}

// The session that an item is, if it is one.
fn read_session(alloc: Global, item: &Value) -> Result<Option<Session>, AllocError>
    ensures { IfOk result (λ session. session ≡ session_of (view item.now)) }
{
    let Some(number) = number_at(item, "id") else {
        return Ok(None);
    };
    let key = read_key(alloc, item)?;
    let unchecked = unchecked_in(item);
    let session = Session::new(alloc, number, key, entity_in(item), unchecked)?;
    Ok(Some(session))
}

// What the client of a session calls itself.
fn entity_in(item: &Value) -> Option<&str>
    ensures { option_map (λ name. name.now) result ≡ entity_in (view item.now) }
{
    text_at(item.get("client_metadata")?, "entity_id")
}

// Whether the client of a session tells what it can, and not that it checks itself.
fn unchecked_in(item: &Value) -> bool
    ensures { result ≡ unchecked_in (view item.now) }
{
    match features_in(item) {
        None => false,
        Some(features) => !has_bit_21(features.as_bytes()),
    }
}

// The features that it tells.
fn features_in(item: &Value) -> Option<&str>
    ensures { option_map (λ features. features.now) result ≡ features_in (view item.now) }
{
    let features = item.get("client_metadata")?.get("client_features")?;
    text_at(features, "feature_bits")
}

// Whether a number in hexadecimal digits has bit 21. The sixth digit from the end has the bits 20 to 23.
fn has_bit_21(digits: &[u8]) -> bool
    ensures { result ≡ has_bit_21 digits.now }
{
    if digits.len() < 6 {
        return false;
    }
    b"2367abef".contains(&digits[digits.len() - 6])
}
