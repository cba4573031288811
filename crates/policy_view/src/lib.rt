//! What readers see of a metadata server beside its lock: the inodes, and who is connected. It follows the server, change by
//! change, and a question on policy is answered from it.
//!
//! Public source: "CephFS" in the Ceph documentation.
#![tactic(auto)]

mod answer;
mod change;
mod follow;
mod laws;
mod view;

pub use answer::{Question, Unknown};
pub use change::ViewChange;
pub use laws::{
    changes_are_followed_one_after_another, views_alike_answer_alike, views_alike_stay_alike,
    what_no_reader_sees_keeps_views_alike,
};
pub use view::View;
