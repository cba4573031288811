//! What the tree keeps of one inode.

ghost use Rattle.std.specs.Prelude.{◌≡◌, IfOk};

use crate::attributes::Attributes;
use crate::name::Name;
use crate::snapshots::Snapshots;
use capbits::{Ino, Mode};
use capgrant::Attr;
use std::alloc::{AllocError, Global};

/// What an inode is.
#[derive(Clone, Copy, Debug)]
pub enum Kind {
    /// It may have children and snapshots.
    Directory,
    /// It has data.
    File,
}

/// Where an inode stands.
#[derive(Debug)]
pub enum Site {
    /// It is the root.
    Root,
    /// It has this name in this directory.
    Under {
        dir: Ino,
        /// The name in it.
        name: Name,
    },
    /// Nowhere: it was unlinked, and is a stray.
    Stray,
}

// Not derived: so the proof of a function that drops one has a single call there.
impl Drop for Site {
    fn drop(self) {
        match self {
            Site::Root => {}
            Site::Under { dir: _, name: _ } => {}
            Site::Stray => {}
        }
    }
}

/// What the tree keeps of one inode.
#[derive(Debug)]
pub struct Node {
    /// What it is.
    pub kind: Kind,
    /// Where it stands.
    pub site: Site,
    /// Its owner, group and mode.
    pub attr: Attr,
    /// How many bytes of data it has.
    pub size: u64,
    /// When it was changed.
    pub time: u64,
    /// Its extended attributes.
    pub attributes: Attributes,
    /// The names of its snapshots; a file has none.
    pub snapshots: Snapshots,
}

// Not derived: so the proof of a function that drops one has a single call there.
impl Drop for Node {
    fn drop(self) {
        let Node {
            kind: _,
            site: _,
            attr: _,
            size: _,
            time: _,
            attributes: _,
            snapshots: _,
        } = self;
    }
}

impl Site {
    // A copy of the site, which takes no memory.
    pub(crate) fn copy(&self) -> Site
        ensures { result ≡ self.now }
    {
        match self {
            Site::Root => Site::Root,
            Site::Under { dir, name } => Site::Under {
                dir: *dir,
                name: name.copy(),
            },
            Site::Stray => Site::Stray,
        }
    }
}

impl Node {
    ghost use Rattle.inotree.specs.Inodes.{with_setting};

    // A copy of the node.
    pub(crate) fn copy(&self, alloc: Global) -> Result<Node, AllocError>
        ensures { IfOk result (λ copy. copy ≡ self.now) }
    {
        Ok(Node {
            kind: self.kind,
            site: self.site.copy(),
            attr: self.attr,
            size: self.size,
            time: self.time,
            attributes: self.attributes.copy(alloc)?,
            snapshots: self.snapshots.copy(alloc)?,
        })
    }

    // Gives one field a new value.
    pub(crate) fn set(&mut self, setting: Setting)
        ensures { self.new ≡ with_setting setting self.old }
    {
        match setting {
            Setting::Mode(mode) => self.attr.mode = mode,
            Setting::Uid(uid) => self.attr.uid = uid,
            Setting::Gid(gid) => self.attr.gid = gid,
            Setting::Size(size) => self.size = size,
            Setting::Time(time) => self.time = time,
        }
    }
}

/// A new value of one field of an inode.
#[derive(Clone, Copy, Debug)]
pub enum Setting {
    /// The permission bits.
    Mode(Mode),
    /// The uid of the owner.
    Uid(u32),
    /// The gid of the group.
    Gid(u32),
    /// How many bytes of data there are.
    Size(u64),
    /// When the inode was changed.
    Time(u64),
}

/// Whether the tree has an inode.
#[derive(Clone, Copy, Debug, PartialEq, Eq)]
pub enum Presence {
    /// There is no inode of this number: it was not given, or the inode was forgotten.
    NoIno,
    /// The inode is a stray.
    Gone,
    /// The inode has a path.
    Here,
}
