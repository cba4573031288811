//! The grants of a client, as this server or the MDS of a release reads them.
ghost use Rattle.std.specs.Prelude.{◌≡◌, [], unwrap_or};

use crate::findings::beyond;
use crate::inode::Inode;
use crate::mds_findings::{Beyond, beyond_there};
use capbits::CapSet;
use capspec::{Grants, SpecFault, SpecFaultKind, read_grants};
use release_grants::Grant;
use release_rules::Release;
use std::alloc::{AllocError, Global};

/// The grants of a client, by whose rules it is judged.
pub(crate) enum GrantsBy {
    /// As this server reads them.
    Own(Grants),
    /// As the MDS of a release does, where there is a text.
    There(Release, Option<release_grants::Grants>),
}

// Not derived: so the proof of a function that drops one has a single call there.
impl Drop for GrantsBy {
    fn drop(self) {
        match self {
            GrantsBy::Own(_) => {}
            GrantsBy::There(_, _) => {}
        }
    }
}

/// Why the grants of a client can't be read.
pub(crate) enum Unreadable {
    /// What this server finds wrong with them.
    Own(SpecFault),
    /// The byte up to which a release reads them.
    There(Release, usize),
}

// Not derived: so the proof of a function that drops one has a single call there.
impl Drop for Unreadable {
    fn drop(self) {
        match self {
            Unreadable::Own(_) => {}
            Unreadable::There(_, _) => {}
        }
    }
}

impl GrantsBy {
    ghost use Rattle.std.specs.Prelude.{IfOk, MatchResult, option_map};
    ghost use Rattle.cluster_audit.specs.GrantsBy.{IsReadBy, IsUnreadBy};
    ghost use Rattle.cluster_audit.specs.MdsFindings.{IsBeyondBy};

    // The grants of the text that a client may have, as they are read by the release, or by this server where none is named.
    pub(crate) fn read(
        alloc: Global,
        mds: Option<Release>,
        caps: Option<&[u8]>,
    ) -> Result<Result<GrantsBy, Unreadable>, AllocError>
        ensures { IfOk result (λ read. MatchResult read (IsReadBy mds (option_map (λ text. text.now) caps.entry)) (IsUnreadBy mds (option_map (λ text. text.now) caps.entry))) }
    {
        match (mds, caps) {
            (None, None) => Ok(Ok(GrantsBy::Own(Grants::none(alloc)?))),
            (None, Some(text)) => match read_grants(alloc, text) {
                Ok(grants) => Ok(Ok(GrantsBy::Own(grants))),
                Err(fault) => match fault.kind {
                    SpecFaultKind::NoMemory => Err(AllocError),
                    _ => Ok(Err(Unreadable::Own(fault))),
                },
            },
            (Some(release), None) => Ok(Ok(GrantsBy::There(release, None))),
            (Some(release), Some(text)) => {
                match release_grants::read_grants(alloc, text, release.switches())? {
                    Ok(grants) => Ok(Ok(GrantsBy::There(release, Some(grants)))),
                    Err(unread) => Ok(Err(Unreadable::There(release, unread.at))),
                }
            }
        }
    }

    // What of the caps that a client with these grants holds of the inode is beyond them.
    pub(crate) fn beyond(
        &self,
        alloc: Global,
        held: CapSet,
        inode: &Inode,
    ) -> Result<Beyond, AllocError>
        ensures { IfOk result (IsBeyondBy self.now inode.now held) }
    {
        match self {
            GrantsBy::Own(grants) => Ok(Beyond {
                finding: beyond(held, grants, inode),
                is_open: false,
            }),
            GrantsBy::There(release, grants) => {
                beyond_there(alloc, *release, held, grants_of(grants), inode)
            }
        }
    }
}

// The grants of a text, or none without one.
fn grants_of(grants: &Option<release_grants::Grants>) -> &[Grant]
    ensures { result.now ≡ unwrap_or grants.now [] }
{
    match grants {
        Some(grants) => grants.as_slice(),
        None => &[],
    }
}
