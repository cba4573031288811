//! Names: of inodes in their directory, of snapshots, and of extended attributes.
ghost use Rattle.std.specs.Prelude.{◌≡◌, [], ◌≤◌, ◌↔◌, length, IsSome, IfSome, IsTrue};
ghost use Rattle.inotree.specs.Names.{is_bad_attribute, is_bad_name};

use arrayvec::ArrayVec;
use std::marker::Model;

/// How many bytes a name may have.
pub const MAX_NAME: usize = 255;

/// A name of at most `MAX_NAME` bytes. Names are ordered by their bytes.
#[derive(Debug, PartialEq, Eq, PartialOrd, Ord)]
pub struct Name {
    // They lie in the value itself, so that a look-up by a name takes no memory.
    bytes: ArrayVec<u8, MAX_NAME>,
}

// Not derived: so the proof of a function that drops one has a single call there.
impl Drop for Name {
    fn drop(self) {
        let Name { bytes: _ } = self;
    }
}

impl Model for Name {
    ghost use Rattle.std.specs.Prelude.{List, ℕ};

    ghost Value = { List ℕ };

    ghost view = { λ name. name.bytes.items };

    ghost inverse = { λ bytes. record { bytes = record { items = bytes } } };
}

impl Name {
    /// The name with these bytes, if they are not too many.
    pub fn read(bytes: &[u8]) -> Option<Name>
        ensures valid { IsSome result ↔ (length bytes.now ≤ MAX_NAME) }
        ensures value { IfSome result (λ name. name ≡ bytes.now) }
    {
        let bytes = ArrayVec::try_from(bytes).ok()?;
        Some(Name { bytes })
    }

    // The name without a byte, which is the first in the order of names.
    pub(crate) fn empty() -> Name
        ensures { result ≡ [] }
    {
        Name {
            bytes: ArrayVec::new(),
        }
    }

    // The name with these bytes, which are not too many.
    pub(crate) fn of(bytes: &[u8]) -> Name
        requires { length bytes.now ≤ MAX_NAME }
        ensures { result ≡ bytes.now }
    {
        match Name::read(bytes) {
            Some(name) => name,
            None => unreachable!(),
        }
    }

    /// A copy of the name, which takes no memory.
    pub fn copy(&self) -> Name
        ensures { result ≡ self.now }
    {
        Name::of(self.bytes.as_slice())
    }

    /// The bytes of the name.
    pub fn as_bytes(&self) -> &[u8]
        ensures { result.now ≡ self.now }
    {
        self.bytes.as_slice()
    }
}

/// Whether a name can't be given to an inode or a snapshot: it is empty, `.` or `..`, has more than `MAX_NAME` bytes, or
/// has a `/` or a zero byte.
pub fn is_bad_name(name: &[u8]) -> bool
    ensures { result ≡ is_bad_name name.now }
{
    matches!(name, [] | b"." | b"..")
        || name.len() > MAX_NAME
        || name.contains(&b'/')
        || name.contains(&0)
}

/// Whether a name can't be given to an attribute: it is empty, has more than `MAX_NAME` bytes, or has a zero byte.
pub fn is_bad_attribute(name: &[u8]) -> bool
    ensures { result ≡ is_bad_attribute name.now }
{
    name.is_empty() || name.len() > MAX_NAME || name.contains(&0)
}
