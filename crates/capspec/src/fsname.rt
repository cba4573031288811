//! The name of a file system.

use arrayvec::ArrayVec;
use byte_sets::{ByteSet, split_while};
use std::marker::Model;

/// The longest name of a file system, in bytes.
pub const MAX_FS_NAME: usize = 64;

/// The name of a file system: 1 to 64 of A-Z, a-z, 0-9, `_`, `.` and `-`.
#[derive(Clone, Debug)]
pub struct FsName {
    bytes: ArrayVec<u8, MAX_FS_NAME>,
}

// Not derived: so the proof of a function that drops one has a single call there.
impl Drop for FsName {
    fn drop(self) {
        let FsName { bytes: _ } = self;
    }
}

impl Model for FsName {
    ghost use Rattle.std.specs.Prelude.{List, ℕ};

    ghost Value = { List ℕ };

    ghost view = { λ name. name.bytes.items };

    ghost inverse = { λ bytes. record { bytes = record { items = bytes } } };
}

impl FsName {
    ghost use Rattle.std.specs.Prelude.{◌≡◌, IsSome, IfSome, ◌↔◌};
    ghost use Rattle.capspec.specs.Names.{IsFsName};

    /// The name that the bytes are, if they may be one.
    pub fn read(bytes: &[u8]) -> Option<FsName>
        ensures valid { IsSome result ↔ IsFsName bytes.now }
        ensures value { IfSome result (λ name. name ≡ bytes.now) }
    {
        let (name, rest) = split_while(ByteSet::FsName, bytes);
        if name.is_empty() || !rest.is_empty() {
            return None;
        }
        let mut bytes = ArrayVec::new();
        bytes.try_extend_from_slice(name).ok()?;
        Some(FsName { bytes })
    }

    /// The bytes of the name.
    pub fn as_bytes(&self) -> &[u8]
        ensures { result.now ≡ self.now }
    {
        self.bytes.as_slice()
    }
}
