//! What Ceph prints of a running cluster, read as it stands: keyrings (`ceph auth get`), the auth list (`ceph auth ls -f json`), the
//! sessions of a metadata server (`ceph tell mds.N session ls`) and its tree, with what clients hold of each inode (`ceph tell mds.N
//! dump tree`), which is cut into its inodes while it is read: in memory for one of them, however long it is.
//!
//! Public source: "User Management", "MDS Cache Configuration" and "CephFS Administrative commands" in the Ceph documentation; RFC 8259,
//! "The JavaScript Object Notation (JSON) Data Interchange Format".
#![tactic(auto)]

mod array_fault;
mod auth_fault;
mod cluster_fault;
mod cut;
mod cutter;
mod entity;
mod fs_names;
mod growing;
mod holder;
mod inode;
mod key;
mod keyring_fault;
mod list;
mod naming;
mod outside;
mod place;
mod quoted;
mod reading;
mod section;
mod session;
mod stage;
mod tree;
mod tree_fault;
mod values;

pub use auth_fault::AuthFault;
pub use cluster_fault::ClusterFault;
pub use entity::Entity;
pub use fs_names::{fs_among, is_unnamed};
pub use growing::TreeReader;
pub use holder::Holder;
pub use inode::TreeInode;
pub use key::Key;
pub use keyring_fault::KeyringFault;
pub use list::AuthList;
pub use reading::read_auth;
pub use section::mds_caps;
pub use session::{Session, read_sessions};
pub use tree::Tree;
pub use tree_fault::TreeFault;
