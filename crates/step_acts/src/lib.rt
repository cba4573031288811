//! The acts that a step is made of, each on one thing, a request, an inode, an entry, a client or a row: how a request is served, what an
//! entry that is opened is known to be permitted, whose caps are permitted anew, how a step ends at an entry, what goes with a client, and
//! how there is room in the history. The core (`capcore`) puts them together, by the rules of a step (`capstep`).
#![tactic(auto)]

pub mod finishing;
pub mod history;
pub mod opening;
pub mod renewing;
pub mod serving;
pub mod session_end;
