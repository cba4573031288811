//! What an audit looks at together.
ghost use Rattle.std.specs.Prelude.{◌≡◌};
ghost use Rattle.cluster_audit.specs.Findings.{is_unjudged};

use crate::conflict::Conflict;
use crate::findings::Finding;
use crate::inode::Inode;
use capbits::CapSet;
use ceph_input::Holder;

// A client that holds something of an inode to which a path leads, as the cluster tells it.
#[derive(Clone, Copy)]
pub(crate) struct Entry<'a> {
    // The number of the inode.
    pub(crate) number: u64,
    pub(crate) inode: &'a Inode<'a>,
    // The name of the client, and whether it is known not to check itself.
    pub(crate) client: &'a [u8],
    pub(crate) unchecked: bool,
    // The number of its session, and the texts of the caps.
    pub(crate) holder: &'a Holder,
}

// The caps that a client holds of an inode.
#[derive(Clone, Copy)]
pub(crate) struct Held<'a> {
    // The number of the inode, and the names from the root down to it.
    pub(crate) number: u64,
    pub(crate) path: &'a [&'a [u8]],
    // The name of the client, and the number of its session.
    pub(crate) client: &'a [u8],
    pub(crate) session: u64,
    // Whether the client is known not to check itself.
    pub(crate) unchecked: bool,
    // The caps that it may still hold, and of these those that are not being revoked.
    pub(crate) issued: CapSet,
    pub(crate) pending: CapSet,
}

impl Held<'_> {
    // Whether from Ceph 18 on nobody judges what is written back by the caps that are found: no MDS does, and the client does not.
    pub(crate) fn is_unjudged(&self, found: &Finding) -> bool
        ensures { result ≡ is_unjudged self.now.unchecked found.now.caps }
    {
        self.unchecked && found.has_writers_caps()
    }
}

// Two sessions in conflict on an inode.
#[derive(Clone, Copy)]
pub(crate) struct NamedConflict<'a> {
    // The number of the inode, and the names from the root down to it, where a path leads there.
    pub(crate) number: u64,
    pub(crate) path: Option<&'a [&'a [u8]]>,
    // The names that the two sessions tell, if they tell any.
    pub(crate) one: Option<&'a [u8]>,
    pub(crate) other: Option<&'a [u8]>,
    pub(crate) conflict: Conflict,
}
