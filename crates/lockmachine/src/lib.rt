//! The locks of all inodes, the requests that wait for them, and what the next move of a step is. A lock is looked at beside what
//! clients hold and want of its inode: whether its gather may end, and whether it is to go elsewhere.
//!
//! Public source: "Capabilities in CephFS" in the Ceph documentation.
#![tactic(auto)]

mod bytes;
mod held;
mod laws;
mod lock;
mod locks;
mod moves;
mod policy;
mod request;
mod scene;
mod states;
mod under;
mod waiters;
mod want;
mod wants;

pub use bytes::Bytes;
pub use held::holders_outside;
pub use laws::{
    a_number_names_its_request, between_servings_locks_move_little, moves_keep_rows,
    settled_is_at_rest, the_queue_keeps_its_order,
};
pub use locks::Locks;
pub use moves::Move;
pub use policy::{Policy, verdict_on};
pub use request::{Change, Operation, Request};
pub use scene::KeptScene;
pub use states::InodeLocks;
pub use under::{allowed_under, pending_under};
pub use waiters::MAX_WAITING;
pub use wants::{Wants, effective_want, permitted, permitted_on, want_of_permitted, wants_on};
