//! The entities of an auth list.

use std::alloc::{AllocError, Global};
use std::marker::Model;

/// An entity of an auth list: a client, or a daemon.
pub struct Entity {
    name: Vec<u8>,
    caps: Option<Vec<u8>>,
}

// Not derived: so the proof of a function that drops one has a single call there.
impl Drop for Entity {
    fn drop(self) {
        let Entity { name: _, caps: _ } = self;
    }
}

impl Model for Entity {
    ghost use Rattle.std.specs.Prelude.{option_map};
    ghost use Rattle.ceph_input.specs.Auth.{Named, named};

    ghost Value = { Named };

    ghost view = { λ e. named e.name.items (option_map (λ text. text.items) e.caps) };
}

impl Entity {
    ghost use Rattle.std.specs.Prelude.{◌≡◌, IfOk, option_map};
    ghost use Rattle.ceph_input.specs.Auth.{is_client, named};

    /// The entity of this name, with this text of its grants for the MDS.
    pub(crate) fn new(alloc: Global, name: &str, caps: Option<&str>) -> Result<Entity, AllocError>
        ensures { IfOk result (λ e. e ≡ named name.now (option_map (λ text. text.now) caps.entry)) }
    {
        let name = Vec::from_slice(alloc, name.as_bytes())?;
        let caps = match caps {
            None => None,
            Some(text) => Some(Vec::from_slice(alloc, text.as_bytes())?),
        };
        Ok(Entity { name, caps })
    }

    /// Its name, such as `client.tenant`.
    pub fn name(&self) -> &[u8]
        ensures { result.now ≡ self.now.name }
    {
        self.name.as_slice()
    }

    /// The text of its grants for the MDS, if it has one.
    pub fn caps(&self) -> Option<&[u8]>
        ensures { option_map (λ text. text.now) result ≡ self.now.caps }
    {
        match &self.caps {
            None => None,
            Some(text) => Some(text.as_slice()),
        }
    }

    /// Whether it is a client: whether its name begins with `client.`.
    pub fn is_client(&self) -> bool
        ensures { result ≡ is_client self.now }
    {
        self.name.as_slice().starts_with(b"client.")
    }
}
