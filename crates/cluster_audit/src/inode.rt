//! An inode as the rules see it.

ghost use Rattle.std.specs.Prelude.{◌≡◌, option_map};
ghost use Rattle.policy_analysis.specs.Standing.{AnswersOf};
ghost use Rattle.cluster_audit.specs.Audited.{path_of};
ghost use Rattle.cluster_audit.specs.Callers.{wanted_of};

use capbits::Numbered;
use capgrant::{Access, Attr};
use capspec::{FsName, Grants, TreePath};
use ceph_input::TreeInode;
use policy_analysis::{Standing, Wanted};
use std::marker::Model;

/// An inode of which a client holds something, as the rules see it.
pub struct Inode<'a> {
    /// The name of the file system.
    pub fs: &'a FsName,
    /// The names from the root down.
    pub path: &'a [&'a [u8]],
    /// The path that they are.
    pub place: &'a TreePath,
    /// The owner, the group and the mode.
    pub attr: &'a Attr,
}

// Not derived: so the proof of a function that drops one has a single call there.
impl Drop for Inode<'_> {
    fn drop(self) {
        let Inode {
            fs: _,
            path: _,
            place: _,
            attr: _,
        } = self;
    }
}

impl<'a> Model for Inode<'a> {
    ghost use Rattle.std.specs.Prelude.{map};
    ghost use Rattle.cluster_audit.specs.Callers.{Inode as Seen};

    ghost Value = { Seen };

    ghost view = { λ i. record { fs = i.fs.now; path = map (λ name. name.now) i.path.now; place = i.place.now; attr = i.attr.now } };
}

impl Inode<'_> {
    /// What the grants of a client say to an access to it.
    pub(crate) fn standing(&self, grants: &Grants, access: Access) -> Standing
        ensures { AnswersOf (wanted_of self.now access) self.now.attr grants.now result }
    {
        let wanted = Wanted {
            fs: self.fs,
            path: self.path,
            access,
        };
        wanted.standing(grants, &Some(*self.attr))
    }
}

// The path that leads to an inode, or that led to it before it was unlinked.
pub(crate) fn path_of<'a>(
    paths: &'a Numbered<TreePath>,
    inode: &'a TreeInode,
) -> Option<&'a TreePath>
    ensures { option_map (λ path. path.now) result ≡ path_of paths.now inode.now }
{
    match paths.get(inode.number()) {
        Some(path) => Some(path),
        None => inode.prior_path(),
    }
}
