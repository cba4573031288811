//! What happens.
ghost use Rattle.std.specs.Prelude.{◌≡◌, None, MatchOption};
ghost use Rattle.capstep.specs.Clients.{client_of, session_change, session_event};

use capbits::{Caller, CapSet, ClientId, Ino, Mode, Part};
use capspec::Grants;
use lockmachine::{Bytes, Change};
use sessiontab::{SessionChange, Status};
use std::fmt;

/// What a client opens an inode for.
#[derive(Clone, Copy)]
pub enum OpenMode {
    /// To read it.
    Read,
    /// To write it.
    Write,
    /// To read and to write it.
    ReadWrite,
}

/// Something that happens to the server: what a client asks for, or what is told of one.
pub enum Event {
    /// A client opens a session.
    Session {
        client: ClientId,
        /// The user for whom it asks.
        caller: Caller,
        /// What it may do, and where.
        grants: Grants,
    },
    /// A client ends its session. All that it held, wanted and waited for goes with it, and so does what it was still to be
    /// told of.
    CloseSession {
        client: ClientId,
    },
    /// A client's session has another status: it is stale, as the client was not heard of for too long, or open again. What
    /// the client holds it still holds, but what it wants counts only while the session is open.
    Mark {
        client: ClientId,
        /// What its session is from now on.
        status: Status,
    },
    /// An administrator replaces the grants of a client, whose session is open or stale and goes on. All is decided by
    /// the new grants from now on: what it holds and they do not permit is being revoked.
    Regrant {
        client: ClientId,
        /// What it may do from now on, and where.
        grants: Grants,
    },
    /// A client is thrown out: its session ends, and it comes on the blocklist.
    Evict {
        client: ClientId,
    },
    /// A client that was thrown out is let in again: it comes off the blocklist.
    Unblock {
        client: ClientId,
    },
    /// Clients are asked to release what they have not used for longest: the first entries in the order of recall are
    /// marked, and none is moved.
    Recall {
        /// How many entries, at most.
        count: u32,
    },
    /// A client asks which inode a directory has under a name.
    Lookup {
        client: ClientId,
        dir: Ino,
        name: Bytes,
    },
    /// A client makes a file.
    Create {
        client: ClientId,
        /// The directory of the file.
        dir: Ino,
        /// Its name there.
        name: Bytes,
        /// Its permission bits.
        mode: Mode,
    },
    /// A client makes a directory.
    Mkdir {
        client: ClientId,
        /// The directory of the new one.
        dir: Ino,
        /// Its name there.
        name: Bytes,
        /// Its permission bits.
        mode: Mode,
    },
    /// A client gives a directory a snapshot.
    MakeSnapshot {
        client: ClientId,
        /// The directory.
        ino: Ino,
        /// The name of the snapshot.
        name: Bytes,
    },
    /// A client takes a snapshot from a directory.
    RemoveSnapshot {
        client: ClientId,
        /// The directory.
        ino: Ino,
        /// The name of the snapshot.
        name: Bytes,
    },
    /// A client opens an inode. From now on it wants what this takes, besides what it wanted.
    Open {
        client: ClientId,
        ino: Ino,
        /// What it opens it for.
        mode: OpenMode,
    },
    /// A client says what it wants of an inode that it has opened.
    Want {
        client: ClientId,
        ino: Ino,
        /// The caps. The pin is wanted besides.
        caps: CapSet,
    },
    /// A client acknowledges a message by which caps were taken from it: it holds them no more.
    Ack {
        client: ClientId,
        ino: Ino,
        /// The number up to which it was told of changes, at least that of the last that took something.
        seq: u64,
    },
    /// A client releases caps, and wants them no more. With the pin its entry ends.
    Release {
        client: ClientId,
        ino: Ino,
        caps: CapSet,
    },
    /// A client asks what an inode keeps of a part. It waits for the lock of the part.
    Get {
        client: ClientId,
        ino: Ino,
        part: Part,
    },
    /// A client changes what an inode keeps. It waits for the lock of the part that changes.
    Alter {
        client: ClientId,
        ino: Ino,
        change: Change,
    },
    /// A client unlinks a file. It waits for the lock of the file's link count.
    Unlink {
        client: ClientId,
        /// The file.
        ino: Ino,
    },
    /// A client removes an empty directory. It waits for the lock of the directory's link count.
    Rmdir {
        client: ClientId,
        /// The directory.
        ino: Ino,
    },
    /// A client moves an inode, and all below it, into a directory, under a name. It waits for the lock of the inode's link
    /// count.
    Rename {
        client: ClientId,
        ino: Ino,
        /// The directory that it is to stand in.
        dir: Ino,
        /// Its name there.
        name: Bytes,
    },
    /// A client that alone may change a part has changed it, and says so. It waits for no lock.
    Flush {
        client: ClientId,
        ino: Ino,
        change: Change,
    },
    /// A client asks for its messages.
    Poll {
        client: ClientId,
        /// How many it takes at most.
        max: u32,
    },
}

// Not derived: so the proof of a function that drops one has a single call there.
impl Drop for Event {
    fn drop(self) {
        match self {
            Event::Session {
                client: _,
                caller: _,
                grants: _,
            } => {}
            Event::CloseSession { client: _ } => {}
            Event::Mark {
                client: _,
                status: _,
            } => {}
            Event::Regrant {
                client: _,
                grants: _,
            } => {}
            Event::Evict { client: _ } => {}
            Event::Unblock { client: _ } => {}
            Event::Recall { count: _ } => {}
            Event::Lookup {
                client: _,
                dir: _,
                name: _,
            } => {}
            Event::Create {
                client: _,
                dir: _,
                name: _,
                mode: _,
            } => {}
            Event::Mkdir {
                client: _,
                dir: _,
                name: _,
                mode: _,
            } => {}
            Event::MakeSnapshot {
                client: _,
                ino: _,
                name: _,
            } => {}
            Event::RemoveSnapshot {
                client: _,
                ino: _,
                name: _,
            } => {}
            Event::Open {
                client: _,
                ino: _,
                mode: _,
            } => {}
            Event::Want {
                client: _,
                ino: _,
                caps: _,
            } => {}
            Event::Ack {
                client: _,
                ino: _,
                seq: _,
            } => {}
            Event::Release {
                client: _,
                ino: _,
                caps: _,
            } => {}
            Event::Get {
                client: _,
                ino: _,
                part: _,
            } => {}
            Event::Alter {
                client: _,
                ino: _,
                change: _,
            } => {}
            Event::Unlink { client: _, ino: _ } => {}
            Event::Rmdir { client: _, ino: _ } => {}
            Event::Rename {
                client: _,
                ino: _,
                dir: _,
                name: _,
            } => {}
            Event::Flush {
                client: _,
                ino: _,
                change: _,
            } => {}
            Event::Poll { client: _, max: _ } => {}
        }
    }
}

impl Event {
    /// The client that it is about; a recall is about none.
    pub fn client(&self) -> Option<ClientId>
        ensures { result ≡ client_of self.now }
    {
        match self {
            Event::Recall { .. } => None,
            Event::Session { client, .. }
            | Event::CloseSession { client }
            | Event::Mark { client, .. }
            | Event::Regrant { client, .. }
            | Event::Evict { client }
            | Event::Unblock { client }
            | Event::Lookup { client, .. }
            | Event::Create { client, .. }
            | Event::Mkdir { client, .. }
            | Event::MakeSnapshot { client, .. }
            | Event::RemoveSnapshot { client, .. }
            | Event::Open { client, .. }
            | Event::Want { client, .. }
            | Event::Ack { client, .. }
            | Event::Release { client, .. }
            | Event::Get { client, .. }
            | Event::Alter { client, .. }
            | Event::Unlink { client, .. }
            | Event::Rmdir { client, .. }
            | Event::Rename { client, .. }
            | Event::Flush { client, .. }
            | Event::Poll { client, .. } => Some(*client),
        }
    }

    /// What becomes of whose session, if it changes one that is there.
    pub fn session_change(&self) -> Option<(ClientId, SessionChange<'_>)>
        ensures { MatchOption result
            (session_change self.now ≡ None)
            (λ of. self.now ≡ session_event of.0 of.1) }
    {
        match self {
            Event::CloseSession { client } => Some((*client, SessionChange::Close)),
            Event::Mark { client, status } => Some((*client, SessionChange::Mark(*status))),
            Event::Regrant { client, grants } => Some((*client, SessionChange::Regrant(grants))),
            Event::Evict { client } => Some((*client, SessionChange::Evict)),
            _ => None,
        }
    }
}

/// Tells nothing of the event: its one text is the line that says it.
impl fmt::Debug for Event {
    fn fmt<W: fmt::Write>(&self, f: &mut fmt::Formatter<W>) -> fmt::Result {
        f.debug_struct("Event").finish_non_exhaustive()
    }
}
