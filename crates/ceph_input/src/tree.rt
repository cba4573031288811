//! The tree, with what clients hold of it.

ghost use Rattle.std.specs.Prelude.{◌≡◌, Some, None, IfOk, if◌then◌else◌};
ghost use Rattle.serde_json.specs.View.{view};
ghost use Rattle.ceph_input.specs.Dump.{dump, with_inode};

use crate::inode::{TreeInode, read_inode};
use crate::naming::{add_directory, root_alone};
use capbits::Numbered;
use capspec::TreePath;
use serde_json::Value;
use std::alloc::{AllocError, Global};

/// The inodes that a metadata server has in memory, with their paths and with what clients hold of them.
pub struct Tree {
    /// The inodes, in the order of the text.
    pub inodes: Vec<TreeInode>,
    /// The path of each inode that has one, by its number: of one that has no name (it was unlinked, or the text has only a part of
    /// the tree) there is none.
    pub paths: Numbered<TreePath>,
}

// Not derived: so the proof of a function that drops one has a single call there.
impl Drop for Tree {
    fn drop(self) {
        let Tree {
            inodes: _,
            paths: _,
        } = self;
    }
}

impl Tree {
    ghost use Rattle.std.specs.Prelude.{◌≡◌, [], IfOk};
    ghost use Rattle.ceph_input.specs.Dump.{dump, root_alone};

    // No inode, and the root alone has a path.
    pub(crate) fn empty(alloc: Global) -> Result<Tree, AllocError>
        ensures { IfOk result (λ tree. dump tree.inodes.items tree.paths ≡ dump [] root_alone) }
    {
        Ok(Tree {
            inodes: Vec::new(alloc),
            paths: root_alone(alloc)?,
        })
    }
}

// Adds the inode that an item is, with the paths that it leads to. False where it is none, and then no inode is added, but some paths may be.
pub(crate) fn add_inode(
    alloc: Global,
    inodes: &mut Vec<TreeInode>,
    paths: &mut Numbered<TreePath>,
    item: &Value,
) -> Result<bool, AllocError>
    ensures added { IfOk result (λ good. with_inode (dump inodes.old.items paths.old) (view item.now) ≡ (if good then Some (dump inodes.new.items paths.new) else None)) }
{
    if !add_directory(alloc, paths, item)? {
        return Ok(false);
    }
    match read_inode(alloc, item)? {
        Some(inode) => {
            inodes.push(inode)?;
            Ok(true)
        }
        None => Ok(false),
    }
}
