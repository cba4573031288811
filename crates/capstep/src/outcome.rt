//! How requests end that wait for a lock, and the messages that clients are given.
ghost use Rattle.std.specs.Prelude.{◌≡◌, ◌++◌, ◌∷◌, [], OnOk, OnErr};
ghost use Rattle.capstep.specs.Replies.{outcome_reply};

use crate::reply::Reply;
use capbits::{CapSet, ClientId, Ino, Refusal, Ticket};
use capgrant::{Access, Attr, Rules};
use inotree::Attributes;
use std::alloc::{AllocError, Global};
use std::marker::Model;

/// What an inode keeps of one part.
#[derive(Debug)]
pub enum PartValues {
    /// Its owner, group and mode.
    Auth(Attr),
    /// Its link count, which is 1.
    Link,
    /// Its extended attributes.
    Xattr(Attributes),
    /// Its data.
    File {
        /// How many bytes there are.
        size: u64,
        /// When it was changed.
        time: u64,
    },
}

// Not derived: so the proof of a function that drops one has a single call there.
impl Drop for PartValues {
    fn drop(self) {
        match self {
            PartValues::Auth(_) => {}
            PartValues::Link => {}
            PartValues::Xattr(_) => {}
            PartValues::File { size: _, time: _ } => {}
        }
    }
}

/// How a request ended that waited for a lock.
#[derive(Debug)]
pub enum Outcome {
    /// The change was made.
    Done,
    /// What was asked for.
    Values(PartValues),
    /// No grant of the client allows an access that the request needs.
    Denied {
        /// The first such access.
        access: Access,
        /// For each grant, in order, the first rule by which it fails. None for a client without grants.
        rules: Rules,
    },
    /// It was refused, other than by policy.
    Refused(Refusal),
    /// There was no memory left for it, and what it asks for was not done.
    OutOfMemory,
    /// The session of its client ended before it was served.
    Dropped,
}

// Not derived: so the proof of a function that drops one has a single call there.
impl Drop for Outcome {
    fn drop(self) {
        match self {
            Outcome::Done => {}
            Outcome::Values(_) => {}
            Outcome::Denied {
                access: _,
                rules: _,
            } => {}
            Outcome::Refused(_) => {}
            Outcome::OutOfMemory => {}
            Outcome::Dropped => {}
        }
    }
}

impl Outcome {
    /// The reply that says so; none of a request that was dropped, whose client is there no more.
    pub fn into_reply(self) -> Option<Reply>
        ensures { result ≡ outcome_reply self }
    {
        match self {
            Outcome::Done => Some(Reply::Done),
            Outcome::Values(values) => Some(Reply::Values(values)),
            Outcome::Denied { access, rules } => Some(Reply::Denied { access, rules }),
            Outcome::Refused(refusal) => Some(Reply::Refused(refusal)),
            Outcome::OutOfMemory => Some(Reply::OutOfMemory),
            Outcome::Dropped => None,
        }
    }
}

/// A request that waited for a lock and ended, in a later step or in the one that brought it.
#[derive(Debug)]
pub struct Ended {
    /// Whose it was.
    pub client: ClientId,
    /// Its number.
    pub ticket: Ticket,
    /// How it ended.
    pub outcome: Outcome,
}

// Not derived: so the proof of a function that drops one has a single call there.
impl Drop for Ended {
    fn drop(self) {
        let Ended {
            client: _,
            ticket: _,
            outcome: _,
        } = self;
    }
}

impl Ended {
    /// How it ended.
    pub fn into_outcome(self) -> Outcome
        ensures { result ≡ self.outcome }
    {
        let Ended {
            client: _,
            ticket: _,
            outcome,
        } = self;
        outcome
    }
}

/// What a client is told when it asks for its messages.
#[derive(Debug)]
pub enum Message {
    /// A request of its own ended.
    Ended {
        /// The number of the request.
        ticket: Ticket,
        /// How it ended.
        outcome: Outcome,
    },
    /// What it is to know that it holds on an inode has changed.
    Caps {
        ino: Ino,
        /// The number of the change.
        seq: u64,
        /// What it is to know now.
        caps: CapSet,
    },
    /// The size of an inode was changed while it cached the data.
    Size {
        ino: Ino,
        /// How many bytes of data there are now.
        size: u64,
    },
    /// It is asked to release what it holds on an inode.
    Recall {
        ino: Ino,
    },
}

// Not derived: so the proof of a function that drops one has a single call there.
impl Drop for Message {
    fn drop(self) {
        match self {
            Message::Ended {
                ticket: _,
                outcome: _,
            } => {}
            Message::Caps {
                ino: _,
                seq: _,
                caps: _,
            } => {}
            Message::Size { ino: _, size: _ } => {}
            Message::Recall { ino: _ } => {}
        }
    }
}

/// A list of messages, in the order in which they are given.
#[derive(Debug)]
pub struct MessageList {
    items: Vec<Message>,
}

// Not derived: so the proof of a function that drops one has a single call there.
impl Drop for MessageList {
    fn drop(self) {
        let MessageList { items: _ } = self;
    }
}

impl Model for MessageList {
    ghost use Rattle.std.specs.Coded.{coded_list};
    ghost use Rattle.std.specs.Prelude.{List};
    ghost use Rattle.capstep.specs.declared.outcome.Message.{Message};
    ghost use Rattle.capstep.specs.contracts.outcome.Message as message;

    ghost Value = { List Message };

    ghost coded = { coded_list message.the_row.coded };

    ghost view = { λ list. list.items.items };
}

impl MessageList {
    /// No message.
    pub fn new(alloc: Global) -> MessageList
        ensures { result ≡ [] }
    {
        MessageList {
            items: Vec::new(alloc),
        }
    }

    /// Room for so many messages more.
    pub fn reserve(&mut self, more: usize) -> Result<(), AllocError>
        ensures { self.new ≡ self.old }
    {
        self.items.reserve(more)
    }

    /// One message more, behind all others.
    pub fn push(&mut self, message: Message) -> Result<(), AllocError>
        ensures ok { OnOk result (self.new ≡ self.old ++ message ∷ []) }
        ensures err { OnErr result (self.new ≡ self.old) }
    {
        self.items.push(message)?;
        Ok(())
    }

    /// The messages.
    pub fn as_slice(&self) -> &[Message]
        ensures { result.now ≡ self.now }
    {
        self.items.as_slice()
    }
}

impl From<Vec<Message>> for MessageList {
    ghost from_gives = { λ given list. list ≡ given.items };

    fn from(items: Vec<Message>) -> Self {
        MessageList { items }
    }
}
