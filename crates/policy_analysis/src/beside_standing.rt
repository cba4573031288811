//! Where the MDS of a release lets in somebody behind a client's key though nobody may here, or nobody though somebody may here.

ghost use Rattle.std.specs.Prelude.{◌≡◌, IfOk};
ghost use Rattle.policy_analysis.specs.BesideStanding.{beside_standing, other_of};

use crate::mds_standing::MdsWanted;
use crate::standing::Standing;
use capgrant::Access;
use release_grants::{Grant, Switches, read_grants};
use release_rules::{Otherwise, Verdict, allowed_there, denied_there};
use std::alloc::{AllocError, Global};

impl MdsWanted<'_> {
    /// What is said beside this standing, which this server gives by the same text of grants: what the MDS answers, by which grant and why, where
    /// by the one nobody may and by the other somebody, for some inode and somewhere. Nothing where the release does not read the text, or no
    /// grant lets the client mount. Only memory can be missing.
    pub fn beside(
        &self,
        alloc: Global,
        text: &[u8],
        standing: &Standing,
    ) -> Result<Option<Otherwise>, AllocError>
        ensures { IfOk result (λ other. other ≡ other_of self.now text.now standing.now) }
    {
        let switches = self.release.switches();
        match read_grants(alloc, text, switches)? {
            Ok(grants) => {
                let grants = grants.as_slice();
                let there = self.standing(alloc, grants)?;
                Ok(beside_standing(switches, grants, self.access, standing, &there.verdict))
            }
            Err(_) => Ok(None),
        }
    }
}

// What is said beside this server's standing, by what the MDS says.
fn beside_standing(
    switches: Switches,
    grants: &[Grant],
    access: Access,
    standing: &Standing,
    verdict: &Verdict,
) -> Option<Otherwise>
    ensures { result ≡ beside_standing switches grants.now access standing.now verdict.now }
{
    match (standing, verdict) {
        (Standing::Allowed { grant } | Standing::Depends { grant }, Verdict::Denied { rules }) =>
            Some(denied_there(access, *grant as usize, rules.as_slice())),
        (
            Standing::Denied { rules },
            Verdict::Allowed { grant } | Verdict::DependsOnAddress { grant },
        ) => {
            let rules = rules.as_slice();
            Some(allowed_there(switches, grants, access, *grant, rules))
        }
        _ => None,
    }
}
