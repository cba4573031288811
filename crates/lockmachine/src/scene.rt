//! All that the next move depends on, with what is kept beside it.

use crate::locks::Locks;
use capspec::FsName;
use captable::CapTable;
use inotree::Tree;
use sessiontab::Sessions;

/// All that the next move depends on: the name of the file system, the tree, the sessions, the entries with the sets that are kept
/// beside them, and the locks with the counts that are kept beside those. The rules read nothing of that: to them it is
/// the `Scene` that `plain` makes of it.
#[derive(Debug)]
pub struct KeptScene {
    pub fs: FsName,
    pub tree: Tree,
    pub sessions: Sessions,
    pub table: CapTable,
    pub locks: Locks,
}

// Not derived: so the proof of a function that drops one has a single call there.
impl Drop for KeptScene {
    fn drop(self) {
        let KeptScene {
            fs: _,
            tree: _,
            sessions: _,
            table: _,
            locks: _,
        } = self;
    }
}
