//! What grants say to more than one question: what one list of grants allows and another denies, with a question that shows it;
//! what is to be looked at in a list, also by the rules of releases of Ceph; what some caller behind a client's key may do, here and by
//! the MDS of a release; and which grants of a text Ceph 16 reads otherwise than they stand there.
//!
//! Public source: "CephFS Client Capabilities" in the Ceph documentation; what Ceph 16 takes of the grammar was asked of its reader.
#![tactic(auto)]

mod asking;
mod beside_standing;
mod bytes;
mod callers;
mod ceph;
mod client_questions;
mod compare;
mod compare_by;
mod dots;
mod finding;
mod free;
mod items;
mod left;
mod left_laws;
mod mds_standing;
mod oddity;
mod oddity_laws;
mod redundant;
mod refusal;
mod releases;
mod search;
mod squash;
mod stand_ins;
mod standing;
mod stands_for_laws;
mod unread;
mod unread_laws;
mod vxattr;
mod witness;

pub use client_questions::Wanted;
pub use compare::{gained, lost};
pub use compare_by::{Change, MdsGrants, Terms, gained_by};
pub use finding::{Finding, lint};
pub use left::left_to_client;
pub use mds_standing::{MdsStanding, MdsWanted};
pub use oddity::{OddGrant, Oddity, oddities};
pub use refusal::{Refusal, paths_of, refusals};
pub use releases::Releases;
pub use stand_ins::NotCompared;
pub use standing::Standing;
pub use unread::{Unread, unread_grants};
pub use witness::Witness;
