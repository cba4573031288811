//! A grant as far as its text was read.

use crate::flags::Flags4;
use crate::fsname::FsName;
use crate::gids::Gids;
use crate::grant::Grant;
use crate::items::Key;
use crate::tree_path::TreePath;
use std::alloc::{AllocError, Global};

/// What the items of one grant have said so far. It takes no memory: its path is still a part of the text.
pub(crate) struct Draft<'a> {
    pub flags: Flags4,
    pub fsname: Option<Option<FsName>>,
    pub path: Option<&'a [u8]>,
    pub uid: Option<u32>,
    pub gids: Option<Gids>,
    pub root_squash: bool,
}

// Not derived: so the proof of a function that drops one has a single call there.
impl Drop for Draft<'_> {
    fn drop(self) {
        let Draft {
            flags: _,
            fsname: _,
            path: _,
            uid: _,
            gids: _,
            root_squash: _,
        } = self;
    }
}

impl<'a> Draft<'a> {
    ghost use Rattle.std.specs.Prelude.{◌≡◌, IfOk};
    ghost use Rattle.capspec.specs.Draft.{grant_of, has, no_items};

    /// A grant with these flags, before its items.
    pub fn new(flags: Flags4) -> Draft<'a>
        ensures { result ≡ no_items flags }
    {
        Draft {
            flags,
            fsname: None,
            path: None,
            uid: None,
            gids: None,
            root_squash: false,
        }
    }

    /// Whether an item with this key was read.
    pub fn has(&self, key: Key) -> bool
        ensures { result ≡ has self.now key }
    {
        match key {
            Key::FsName => self.fsname.is_some(),
            Key::Path => self.path.is_some(),
            Key::Uid => self.uid.is_some(),
            Key::Gids => self.gids.is_some(),
            Key::RootSquash => self.root_squash,
        }
    }

    /// The grant, with its path copied out of the text.
    pub fn into_grant(self, alloc: Global) -> Result<Grant, AllocError>
        ensures { IfOk result (λ grant. grant ≡ grant_of self.entry) }
    {
        let Draft {
            flags,
            fsname,
            path,
            uid,
            gids,
            root_squash,
        } = self;
        let path = TreePath::from_text(alloc, path.unwrap_or(&[]))?;
        Ok(Grant {
            flags,
            fsname: fsname.flatten(),
            path,
            uid,
            gids: gids.unwrap_or_default(),
            root_squash,
        })
    }
}
