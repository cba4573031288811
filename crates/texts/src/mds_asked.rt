//! What an MDS is asked for.
ghost use Rattle.std.specs.Prelude.{Some};
ghost use Rattle.texts.specs.MdsAsked.{mds_access_word};

use capgrant::Access;
use release_rules::{Asked, changes_attributes};
use std::fmt;

/// What a question to an MDS asks for. One grant has to allow it all.
///
/// It prints as its word: that of the access, `readwrite`, or `mask:BITS:UID:GID` with its numbers in decimal.
#[derive(Clone, Copy)]
pub enum MdsAccess {
    /// An access that this server knows too.
    One(Access),
    /// To read and to write, as whoever opens a file for both does.
    ReadWrite,
    /// All that the mask of a check has, as the MDS logs it.
    Mask {
        /// The bits of what is asked for.
        bits: u32,
        /// The uid of the owner that the inode is to be given to, where bit 16 asks for that.
        uid: u32,
        /// The gid of the group that it is to be given to, where bit 32 does.
        gid: u32,
    },
}

impl fmt::Display for MdsAccess {
    ghost output = { λ access. Some (mds_access_word access) };

    fn fmt<W: fmt::Write>(&self, f: &mut fmt::Formatter<W>) -> fmt::Result {
        match self {
            MdsAccess::One(access) => write!(f, "{access}"),
            MdsAccess::ReadWrite => f.write_str("readwrite"),
            MdsAccess::Mask { bits, uid, gid } => write!(f, "mask:{bits}:{uid}:{gid}"),
        }
    }
}

impl MdsAccess {
    ghost use Rattle.std.specs.Prelude.{◌≡◌};
    ghost use Rattle.texts.specs.MdsAsked.{asked_there, is_checked_by_client};

    /// What an MDS asks its grants for it.
    pub fn asked(&self) -> Asked
        ensures { result ≡ asked_there self.now }
    {
        match self {
            MdsAccess::One(access) => Asked::of_access(*access),
            MdsAccess::ReadWrite => Asked::of_mask(3, 0, 0),
            MdsAccess::Mask { bits, uid, gid } => Asked::of_mask(*bits, *uid, *gid),
        }
    }

    /// Whether a client checks it before it asks. Of several accesses at once it is not known what the client asks for.
    pub fn is_checked_by_client(&self) -> bool
        ensures { result ≡ is_checked_by_client self.now }
    {
        match self {
            MdsAccess::One(access) => changes_attributes(*access),
            MdsAccess::ReadWrite | MdsAccess::Mask { .. } => false,
        }
    }
}
