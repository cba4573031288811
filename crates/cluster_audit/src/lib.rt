//! The audit of a running cluster: which caps a client holds that nobody behind its key is permitted, and which clients hold
//! together what the table of the locks keeps apart. The tree that a metadata server has in memory is laid beside the sessions and
//! the auth list of its cluster.
//!
//! Public source: "Capabilities in CephFS" and "CephFS client capabilities" in the Ceph documentation.
#![tactic(auto)]

mod aliases;
mod auditing;
mod callers;
mod clients;
mod conflict;
mod conflict_laws;
mod fault;
mod findings;
mod grants_by;
mod held;
mod holders;
mod inode;
mod known;
mod laws;
mod lines;
mod mds_findings;
mod notes;
mod objects;
mod order;
mod otherwise;
mod pairs;
mod summary;
mod unjudged;
mod unlinked;

pub use auditing::audit_report;
pub use clients::ClusterClients;
pub use conflict::{Conflict, Holding, conflicts};
pub use fault::HeldFault;
pub use findings::{Denial, Finding, beyond};
pub use inode::Inode;
pub use notes::{Detail, Manner};
