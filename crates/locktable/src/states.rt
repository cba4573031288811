//! The states of a lock.
use capbits::ClientId;

/// A stable state of the lock of a part.
#[derive(Clone, Copy, PartialEq, Eq, Hash, Debug)]
pub enum StableState {
    /// Every client may read the part and keep what it read.
    Sync,
    /// No client may hold anything of the part, but what it has read of a file's data, so the server may change it.
    Lock,
    /// Every client may read and write the file, and none may keep any of it. A state of the file lock alone.
    Mix,
    /// One client has the part for itself, and may change it.
    Excl(ClientId),
}

/// The state of a lock: at rest in one state, or on the way to another.
#[derive(Clone, Copy, PartialEq, Eq, Hash, Debug)]
pub enum LockState {
    /// At rest.
    Stable(StableState),
    /// Waiting until the clients have acknowledged or released what the target doesn't allow.
    Gather {
        /// The state that the lock leaves.
        from: StableState,
        /// The target.
        to: StableState,
    },
}
