//! The moves of a step.
ghost use Rattle.std.specs.Prelude.{◌≡◌};
ghost use Rattle.lockmachine.specs.Cursors.{may_wait};

use capbits::{Ino, Part, Ticket};
use locktable::StableState;

/// What is done next to bring the locks to rest.
#[derive(Clone, Copy, Debug, PartialEq, Eq)]
pub enum Move {
    /// A stable lock gathers: it is on its way to another state.
    Begin {
        ino: Ino,
        /// The part that the lock guards.
        part: Part,
        /// The state.
        to: StableState,
    },
    /// A gather is over: the lock is stable in its target.
    End {
        ino: Ino,
        /// The part that the lock guards.
        part: Part,
    },
    /// The request with this number is served.
    Serve(Ticket),
    /// Nothing is left to do.
    Settled,
}

// Among whose requests one that may be served has to be looked for, at the inode to which a sweep has come.
#[derive(Clone, Copy)]
pub(crate) enum QueueScope {
    Everybody,
    // Those at the inode, where nobody elsewhere may be served.
    Here,
    // Nobody waits at the inode, and nobody elsewhere may be served.
    Nobody,
}

// The inode to which a sweep has come, and among whose requests one that may be served has to be looked for.
#[derive(Clone, Copy)]
pub(crate) struct SweepCursor {
    pub(crate) ino: Ino,
    pub(crate) scope: QueueScope,
}

impl QueueScope {
    // Whether one may wait at the inode.
    pub(crate) fn may_wait(self) -> bool
        ensures { result ≡ may_wait self }
    {
        match self {
            QueueScope::Everybody | QueueScope::Here => true,
            QueueScope::Nobody => false,
        }
    }
}
