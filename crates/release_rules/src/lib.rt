//! What the MDS of three releases of Ceph makes of the grants of a client (MDS auth caps), each as it is: which texts it reads, whether the
//! client may mount a file system, what it may do there, what its clients refuse by themselves, and where it answers otherwise than this server.
//!
//! Public source: "CephFS Client Capabilities" in the Ceph documentation. The rest was asked of the programs.
#![tactic(auto)]

mod asked;
mod beside;
mod judging;
mod question;
mod release;
mod rule;
mod verdict;

pub use asked::Asked;
pub use beside::{Others, Otherwise, Reason, allowed_there, answers_beside, denied_there};
pub use judging::{
    changes_attributes, client_refuses, first_somewhere, is_for_everything, may_mount, mds_verdict,
};
pub use question::{Question, user_of};
pub use release::Release;
pub use rule::Rule;
pub use verdict::{Rules, Verdict};
