//! The clients that are connected to the server, and those that were thrown out.
//!
//! Public source: "Ceph file system client eviction" in the Ceph documentation.
#![tactic(auto)]

mod blocklist;
mod change;
mod connected;
mod laws;
mod session;
mod table;

pub use change::SessionChange;
pub use connected::Connected;
pub use laws::a_new_session_changes_no_other;
pub use session::{NoSession, Session, Status};
pub use table::{MAX_BLOCKED, MAX_SESSIONS, Sessions};
