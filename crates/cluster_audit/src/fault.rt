//! Why the clients of a cluster are not known.

use ceph_input::{AuthFault, ClusterFault};
use std::fmt;
use std::fmt::Display;

/// Why the clients of a cluster are not known.
#[derive(Clone, Copy)]
pub enum HeldFault {
    /// What is wrong with the auth list.
    Auth(AuthFault),
    /// What is wrong with the list of sessions.
    Sessions(ClusterFault),
}

impl Display for HeldFault {
    fn fmt<W: fmt::Write>(&self, f: &mut fmt::Formatter<W>) -> fmt::Result {
        match self {
            HeldFault::Auth(fault) => write!(f, "auth list: {fault}"),
            HeldFault::Sessions(fault) => write!(f, "sessions: {fault}"),
        }
    }
}
