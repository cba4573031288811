//! What is asked for, and of the inode what decides it.
ghost use Rattle.std.specs.Prelude.{Some};
ghost use Rattle.capgrant.specs.Access.{access_word};

use capbits::Mode;
use std::fmt;

/// What a client asks to do with an inode.
///
/// It prints as its word: `read`, `write`, `vxattr`, `snapshot`, `chmod`, or `chown:N` or `chgrp:N` with the number in decimal.
#[derive(Clone, Copy, PartialEq, Eq)]
pub enum Access {
    /// Read the file or the directory, or its attributes.
    Read,
    /// Change the content, the size, the times or an extended attribute.
    Write,
    /// Set or remove an attribute whose name begins with `ceph.`, such as a quota.
    SetVxattr,
    /// Make or remove a snapshot.
    Snapshot,
    /// Change the mode.
    Chmod,
    /// Give the inode to the owner with this uid.
    Chown(u32),
    /// Give the inode to the group with this gid.
    Chgrp(u32),
}

impl fmt::Display for Access {
    ghost output = { λ access. Some (access_word access) };

    fn fmt<W: fmt::Write>(&self, f: &mut fmt::Formatter<W>) -> fmt::Result {
        let word = match self {
            Access::Read => "read",
            Access::Write => "write",
            Access::SetVxattr => "vxattr",
            Access::Snapshot => "snapshot",
            Access::Chmod => "chmod",
            Access::Chown(uid) => return write!(f, "chown:{uid}"),
            Access::Chgrp(gid) => return write!(f, "chgrp:{gid}"),
        };
        f.write_str(word)
    }
}

// An access prints for programmers as it does for people, so that its word stands once.
impl fmt::Debug for Access {
    fn fmt<W: fmt::Write>(&self, f: &mut fmt::Formatter<W>) -> fmt::Result {
        fmt::Display::fmt(self, f)
    }
}

/// The owner, the group and the mode of an inode.
#[derive(Clone, Copy, Debug)]
pub struct Attr {
    /// The uid of the owner.
    pub uid: u32,
    /// The gid of the group.
    pub gid: u32,
    /// The permission bits.
    pub mode: Mode,
}
