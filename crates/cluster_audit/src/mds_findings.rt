//! What a client holds and the MDS of a release lets nobody behind its key do.
ghost use Rattle.std.specs.Prelude.{◌≡◌, IfOk};
ghost use Rattle.cluster_audit.specs.MdsFindings.{beyond_there, denial_there, found_if, may_let_in, said_there};

use crate::findings::{Denial, Finding, least_access};
use crate::inode::Inode;
use arrayvec::ArrayVec;
use capbits::CapSet;
use capgrant::{Access, Rules, caps_for};
use policy_analysis::{MdsStanding, MdsWanted};
use release_grants::Grant;
use release_rules::{Release, Verdict};
use std::alloc::{AllocError, Global};

/// What a client holds beyond its grants.
pub(crate) struct Beyond {
    /// What nobody behind its key is permitted, if anything.
    pub(crate) finding: Option<Finding>,
    /// Whether somebody is permitted some of the rest from some addresses alone.
    pub(crate) is_open: bool,
}

// Not derived: so the proof of a function that drops one has a single call there.
impl Drop for Beyond {
    fn drop(self) {
        let Beyond {
            finding: _,
            is_open: _,
        } = self;
    }
}

/// What of the caps that a client holds of the inode is beyond what the MDS of a release lets somebody behind these grants do.
pub(crate) fn beyond_there(
    alloc: Global,
    release: Release,
    held: CapSet,
    grants: &[Grant],
    inode: &Inode,
) -> Result<Beyond, AllocError>
    ensures { IfOk result (λ beyond. beyond ≡ beyond_there release inode.now grants.now held) }
{
    let read = inode.said_there(alloc, release, grants, Access::Read)?;
    let write = inode.said_there(alloc, release, grants, Access::Write)?;
    let for_sure = caps_for(read.verdict.is_allowed(), write.verdict.is_allowed());
    let at_most = caps_for(may_let_in(&read.verdict), may_let_in(&write.verdict));
    let caps = held.minus(at_most);
    let is_open = !held.minus(for_sure).minus(caps).is_empty();
    let finding = inode.found_if(alloc, release, grants, caps)?;
    Ok(Beyond { finding, is_open })
}

// Whether it lets somebody in, if the client is in the network of the grant.
fn may_let_in(verdict: &Verdict) -> bool
    ensures { result ≡ may_let_in verdict.now }
{
    matches!(
        verdict,
        Verdict::Allowed { .. } | Verdict::DependsOnAddress { .. }
    )
}

impl Inode<'_> {
    // What the MDS of a release says to somebody behind these grants.
    fn said_there(
        &self,
        alloc: Global,
        release: Release,
        grants: &[Grant],
        access: Access,
    ) -> Result<MdsStanding, AllocError>
        ensures { IfOk result (λ standing. standing ≡ said_there release self.now grants.now access) }
    {
        let known = Some(*self.attr);
        let wanted = MdsWanted {
            release,
            fs: self.fs,
            path: self.place,
            access,
            known: &known,
        };
        wanted.standing(alloc, grants)
    }

    // What is found of these caps, which are beyond what the grants permit.
    fn found_if(
        &self,
        alloc: Global,
        release: Release,
        grants: &[Grant],
        caps: CapSet,
    ) -> Result<Option<Finding>, AllocError>
        ensures { IfOk result (λ found. found ≡ found_if release self.now grants.now caps) }
    {
        if caps.is_empty() {
            return Ok(None);
        }
        let missing = least_access(caps);
        let denial = self.denial_there(alloc, release, grants, missing)?;
        Ok(Some(Finding {
            caps,
            missing,
            denial,
        }))
    }

    // Why the access that is missing is denied.
    fn denial_there(
        &self,
        alloc: Global,
        release: Release,
        grants: &[Grant],
        missing: Option<Access>,
    ) -> Result<Denial, AllocError>
        ensures { IfOk result (λ denial. denial ≡ denial_there release self.now grants.now missing) }
    {
        match missing {
            Some(access) => Ok(Denial::There(self.said_there(alloc, release, grants, access)?)),
            None => Ok(Denial::Own(Rules::from(ArrayVec::new()))),
        }
    }
}
