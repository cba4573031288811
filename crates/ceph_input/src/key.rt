//! The keys by which clients were let in.

ghost use Rattle.std.specs.Prelude.{◌≡◌, IfOk, option_map};
ghost use Rattle.serde_json.specs.View.{view};
ghost use Rattle.ceph_input.specs.Sessions.{key_in, key_of};

use crate::values::text_at;
use serde_json::Value;
use std::alloc::{AllocError, Global};
use std::marker::Model;

/// The key by which a client was let in.
pub struct Key {
    kind: Vec<u8>,
    id: Vec<u8>,
}

// Not derived: so the proof of a function that drops one has a single call there.
impl Drop for Key {
    fn drop(self) {
        let Key { kind: _, id: _ } = self;
    }
}

impl Model for Key {
    ghost use Rattle.ceph_input.specs.Sessions.{KeyName, key_of};

    ghost Value = { KeyName };

    ghost view = { λ k. key_of k.kind.items k.id.items };
}

impl Key {
    ghost use Rattle.std.specs.Prelude.{◌≡◌};

    /// What it is the key of, such as `client` or `mgr`.
    pub fn kind(&self) -> &[u8]
        ensures { result.now ≡ self.now.kind }
    {
        self.kind.as_slice()
    }

    /// Its name behind that, such as `tenant` in `client.tenant`.
    pub fn id(&self) -> &[u8]
        ensures { result.now ≡ self.now.id }
    {
        self.id.as_slice()
    }
}

// The key that an item has, if it tells one.
pub(crate) fn read_key(alloc: Global, item: &Value) -> Result<Option<Key>, AllocError>
    ensures { IfOk result (λ key. key ≡ key_in (view item.now)) }
{
    let Some((kind, id)) = key_in(item) else {
        return Ok(None);
    };
    Ok(Some(Key {
        kind: Vec::from_slice(alloc, kind.as_bytes())?,
        id: Vec::from_slice(alloc, id.as_bytes())?,
    }))
}

// Its kind and its name.
fn key_in(item: &Value) -> Option<(&str, &str)>
    ensures { option_map (λ key. key_of key.0.now key.1.now) result ≡ key_in (view item.now) }
{
    let key = item.get("auth_name")?;
    Some((text_at(key, "type_str")?, text_at(key, "id")?))
}
