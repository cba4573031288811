//! Questions that two lists of grants answer differently.

use capbits::Caller;
use capgrant::{Access, Attr};
use capspec::{FsName, TreePath};

/// A question that one list of grants allows and another denies.
pub struct Witness<'a> {
    /// The name of the file system.
    pub fs: FsName,
    /// Who asks.
    pub caller: Caller,
    /// The place of the inode.
    pub path: &'a TreePath,
    /// The owner, the group and the mode of the inode.
    pub attr: Attr,
    /// What is asked for.
    pub access: Access,
    /// The number of the first grant that allows it, from 1, in the list that allows it.
    pub grant: u32,
}

// Not derived: so the proof of a function that drops one has a single call there.
impl Drop for Witness<'_> {
    fn drop(self) {
        let Witness {
            fs: _,
            caller: _,
            path: _,
            attr: _,
            access: _,
            grant: _,
        } = self;
    }
}
