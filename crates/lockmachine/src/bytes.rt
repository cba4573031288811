//! Bytes that a client sent: a name, or the value of an attribute.
ghost use Rattle.std.specs.Prelude.{◌≡◌, IfOk};

use std::alloc::{AllocError, Global};
use std::marker::Model;

/// Any number of any bytes. Whether they can be a name is for the tree to say.
#[derive(Debug)]
pub struct Bytes {
    bytes: Vec<u8>,
}

// Not derived: so the proof of a function that drops one has a single call there.
impl Drop for Bytes {
    fn drop(self) {
        let Bytes { bytes: _ } = self;
    }
}

impl Model for Bytes {
    ghost use Rattle.std.specs.Prelude.{List, ℕ};

    ghost Value = { List ℕ };

    ghost view = { λ b. b.bytes.items };
}

impl Bytes {
    /// These bytes.
    pub fn read(alloc: Global, bytes: &[u8]) -> Result<Bytes, AllocError>
        ensures { IfOk result (λ read. read ≡ bytes.now) }
    {
        let bytes = Vec::from_slice(alloc, bytes)?;
        Ok(Bytes { bytes })
    }

    /// The vector of the bytes.
    pub fn into_inner(self) -> Vec<u8>
        ensures { result.items ≡ self }
    {
        let Bytes { bytes } = self;
        bytes
    }

    /// The bytes.
    pub fn as_slice(&self) -> &[u8]
        ensures { result.now ≡ self.now }
    {
        self.bytes.as_slice()
    }
}

impl From<Vec<u8>> for Bytes {
    ghost from_gives = { λ given bytes. bytes ≡ given.items };

    fn from(bytes: Vec<u8>) -> Self {
        Bytes { bytes }
    }
}
