//! The lock table: what a client may hold of a part of an inode by the state of the part's lock, which requests a
//! state serves, where a lock is to go, and how many clients a gather waits for. The table is this server's own; the parts and caps are those of
//! "Capabilities in CephFS" in the Ceph documentation.
#![tactic(auto)]

mod counts;
mod rows;
mod states;
mod targets;

pub use counts::Counts;
pub use rows::{allowed, row};
pub use states::{LockState, StableState};
pub use targets::{Head, serves, target};
