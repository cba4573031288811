//! What is answered.

use crate::outcome::{MessageList, PartValues};
use capbits::{CapSet, Ino, Refusal, Ticket};
use capgrant::{Access, Rules};
use captable::Holders;
use std::fmt;

/// The answer to an event.
pub enum Reply {
    /// It is done.
    Done,
    /// The inode that was found or made.
    Ino(Ino),
    /// What the client is to know that it holds on the inode that it opened, or of which it said what it wants.
    Opened {
        /// The number of the last change.
        seq: u64,
        caps: CapSet,
    },
    /// What an inode keeps of the part that the client asked for.
    Values(PartValues),
    /// The messages that were due to the client, the first of them.
    Messages(MessageList),
    /// Whose entries are asked for, on which inodes, the first in the order of recall first.
    Recalled(Holders),
    /// The request waits for a lock, under this number.
    Waiting(Ticket),
    /// No grant of the client allows an access that the request needs.
    Denied {
        /// The first such access.
        access: Access,
        /// For each grant, in order, the first rule by which it fails. None for a client without grants.
        rules: Rules,
    },
    /// It was refused, other than by policy.
    Refused(Refusal),
    /// There was no memory left for it, and what it asks for was not done.
    OutOfMemory,
}

// Not derived: so the proof of a function that drops one has a single call there.
impl Drop for Reply {
    fn drop(self) {
        match self {
            Reply::Done => {}
            Reply::Ino(_) => {}
            Reply::Opened { seq: _, caps: _ } => {}
            Reply::Values(_) => {}
            Reply::Messages(_) => {}
            Reply::Recalled(_) => {}
            Reply::Waiting(_) => {}
            Reply::Denied {
                access: _,
                rules: _,
            } => {}
            Reply::Refused(_) => {}
            Reply::OutOfMemory => {}
        }
    }
}

/// Tells nothing of the reply: its one text are the lines that answer it.
impl fmt::Debug for Reply {
    fn fmt<W: fmt::Write>(&self, f: &mut fmt::Formatter<W>) -> fmt::Result {
        f.debug_struct("Reply").finish_non_exhaustive()
    }
}
