//! Why a request is refused, other than by policy.
ghost use Rattle.std.specs.Prelude.{Some};
ghost use Rattle.capbits.specs.Refusal.{refusal_word};

use std::fmt;
use thiserror::Error;

/// Why a request is refused, other than by policy: what it asks for was not done. Each prints as its name, and `OldSeq`
/// with its number behind it, in decimal.
#[derive(Clone, Copy, PartialEq, Eq, Debug, Error)]
pub enum Refusal {
    /// The client is on the blocklist.
    Blocklisted,
    /// The client has a session, open or stale.
    SessionOpen,
    /// The client has no session.
    NoSession,
    /// The client's session is stale.
    SessionStale,
    /// The client's session is not stale.
    NotStale,
    /// The client is not on the blocklist.
    NotBlocked,
    /// There is no such inode.
    NoIno,
    /// The inode was unlinked.
    Gone,
    /// The root can't be moved or removed.
    Root,
    /// The inode is no directory.
    NotDir,
    /// The inode is a directory.
    IsDir,
    /// There is nothing of this name.
    NoEnt,
    /// The name can't be given.
    NameBad,
    /// The name is taken.
    Exists,
    /// The directory has a child or a snapshot.
    NotEmpty,
    /// The new directory is the inode itself or lies below it.
    Loop,
    /// Some path would have more names than a path may have.
    TooDeep,
    /// The inode has no attribute of this name.
    NoXattr,
    /// The client has no entry on the inode.
    NoEntry,
    /// The client does not hold each of the caps.
    NotHeld,
    /// The client holds no cap that is being revoked.
    NothingToAck,
    /// The number is above that of the last message, so the client was not told of it.
    BadSeq,
    /// The number is that of a message before the last revocation.
    OldSeq {
        /// The least number that would be taken.
        need: u64,
    },
    /// There are as many as there may be, or a value is too long.
    Limit,
}

impl fmt::Display for Refusal {
    ghost output = { λ refusal. Some (refusal_word refusal) };

    fn fmt<W: fmt::Write>(&self, f: &mut fmt::Formatter<W>) -> fmt::Result {
        let name = match self {
            Refusal::Blocklisted => "Blocklisted",
            Refusal::SessionOpen => "SessionOpen",
            Refusal::NoSession => "NoSession",
            Refusal::SessionStale => "SessionStale",
            Refusal::NotStale => "NotStale",
            Refusal::NotBlocked => "NotBlocked",
            Refusal::NoIno => "NoIno",
            Refusal::Gone => "Gone",
            Refusal::Root => "Root",
            Refusal::NotDir => "NotDir",
            Refusal::IsDir => "IsDir",
            Refusal::NoEnt => "NoEnt",
            Refusal::NameBad => "NameBad",
            Refusal::Exists => "Exists",
            Refusal::NotEmpty => "NotEmpty",
            Refusal::Loop => "Loop",
            Refusal::TooDeep => "TooDeep",
            Refusal::NoXattr => "NoXattr",
            Refusal::NoEntry => "NoEntry",
            Refusal::NotHeld => "NotHeld",
            Refusal::NothingToAck => "NothingToAck",
            Refusal::BadSeq => "BadSeq",
            Refusal::OldSeq { need } => return write!(f, "OldSeq {need}"),
            Refusal::Limit => "Limit",
        };
        f.write_str(name)
    }
}
