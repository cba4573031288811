//! What some caller behind a client's key is permitted.

ghost use Rattle.std.specs.Prelude.{◌≡◌, ◌↔◌, true, false, IsTrue};
ghost use Rattle.capbits.specs.declared.caller.Caller.{Caller as Who};
ghost use Rattle.capbits.specs.declared.cap.Cap.{Cap};
ghost use Rattle.capbits.specs.Caps.{has};
ghost use Rattle.capbits.specs.Sets.{IsSubset};
ghost use Rattle.capgrant.specs.Verdict.{granted};
ghost use Rattle.cluster_audit.specs.Callers.{IsPermittedToSome, SomebodyMay, asked, permitted_to};

use crate::inode::Inode;
use capbits::CapSet;
use capgrant::{Access, caps_for};
use capspec::Grants;
use policy_analysis::Standing;

/// The caps of the inode that some caller of a client with these grants is permitted. The callers of a client are
/// those whom a grant names: the user of its uid, or any but root where it has none, in any of the groups that it lists. Each
/// cap is judged by itself: what one caller may read and another write is all in the answer. Needs no memory.
pub fn permitted_to_some(grants: &Grants, inode: &Inode) -> CapSet
    ensures exact { (cap : Cap) → IsTrue (has result cap) ↔ IsPermittedToSome inode.now grants.now cap }

    // No caller at all is permitted more, whoever it is and whatever its groups.
    ensures at_all { (caller : Who) → IsSubset (permitted_to inode.now grants.now caller) result }
{
    caps_for(
        inode.is_allowed(grants, Access::Read),
        inode.is_allowed(grants, Access::Write),
    )
}

impl Inode<'_> {
    // Whether the grants allow the access to some caller.
    fn is_allowed(&self, grants: &Grants, access: Access) -> bool
        ensures some { result ≡ true → SomebodyMay self.now grants.now access }
        ensures none { result ≡ false → (caller : Who) → granted (asked self.now caller access) grants.now ≡ false }
    {
        match self.standing(grants, access) {
            Standing::Allowed { .. } => true,
            _ => false,
        }
    }
}
