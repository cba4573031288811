//! The tree of inodes of a file system, in memory.
//!
//! Public source: "CephFS" in the Ceph documentation.
#![tactic(auto)]

mod attributes;
mod calls;
mod heights;
mod index;
mod ino_set;
mod inodes;
mod laws;
mod name;
mod names;
mod node;
mod nonempty_ino_set;
mod snapshots;
mod tree;

pub use attributes::{Attributes, MAX_ATTRIBUTES, MAX_VALUE, Value};
pub use ino_set::InoSet;
pub use laws::{
    a_change_of_one_inode_changes_no_other, a_change_that_may_be_made_keeps_the_tree,
    a_move_changes_only_what_is_below, an_inode_without_children_changes_no_other, names_lead_up,
    what_is_made_or_set_changes_no_other,
};
pub use name::{MAX_NAME, Name, is_bad_attribute, is_bad_name};
pub use names::{MAX_NAMES, Names};
pub use node::{Kind, Node, Presence, Setting, Site};
pub use nonempty_ino_set::{InosLeft, NonEmptyInoSet};
pub use snapshots::{MAX_SNAPSHOTS, Snapshots};
pub use tree::{MAX_INODES, ROOT, Tree};
