//! What a client holds and nobody behind its key is permitted.

ghost use Rattle.std.specs.Prelude.{◌≡◌, false, length, filter_map, option_map, IsTrue, IfSome, MatchOption};
ghost use Rattle.locktable.specs.Targets.{has_any};
ghost use Rattle.capbits.specs.declared.caller.Caller.{Caller};
ghost use Rattle.capbits.specs.declared.cap.Cap.{Cap};
ghost use Rattle.capbits.specs.Caps.{has};
ghost use Rattle.capgrant.specs.Permitted.{for_writers};
ghost use Rattle.capgrant.specs.Verdict.{granted};
ghost use Rattle.cluster_audit.specs.Callers.{IsPermittedToSome, asked};
ghost use Rattle.cluster_audit.specs.Findings.{IsBeyond, least_access, reason, reasons, rules_there};

use crate::callers::permitted_to_some;
use crate::inode::Inode;
use arrayvec::ArrayVec;
use capbits::{Cap, CapSet};
use capgrant::{Access, Rules, readers_caps, writers_caps};
use capspec::Grants;
use policy_analysis::{MdsStanding, Standing};
use release_rules::Verdict;

/// What a client holds of an inode and no caller of it is permitted.
pub struct Finding {
    /// The caps, at least one.
    pub caps: CapSet,
    /// The least access that would permit some of them, to read or to write, which no grant allows to anybody. None for `Fa`
    /// alone, which no access permits.
    pub missing: Option<Access>,
    /// Why it is denied. No rule where no access is missing.
    pub denial: Denial,
}

// Not derived: so the proof of a function that drops one has a single call there.
impl Drop for Finding {
    fn drop(self) {
        let Finding {
            caps: _,
            missing: _,
            denial: _,
        } = self;
    }
}

/// Why an access is denied to everybody behind a client's key.
pub enum Denial {
    /// For each grant, in order, the first rule by which it denies the access to its own user, or to user 1 where it names
    /// none, in all of the groups that it lists.
    Own(Rules),
    /// What the MDS of a release says.
    There(MdsStanding),
}

// Not derived: so the proof of a function that drops one has a single call there.
impl Drop for Denial {
    fn drop(self) {
        match self {
            Denial::Own(_) => {}
            Denial::There(_) => {}
        }
    }
}

/// The rules of a release by which each grant denies an access, where nobody is let in. None where no grant lets the client mount.
pub(crate) fn rules_there(standing: &MdsStanding) -> Option<&[release_rules::Rule]>
    ensures { option_map (λ rules. rules.now) result ≡ rules_there standing.now }
{
    match &standing.verdict {
        Verdict::CannotMount => None,
        Verdict::Denied { rules } => Some(rules.as_slice()),
        _ => Some(&[]),
    }
}

impl Finding {
    // Whether some of the caps are those of a writer, by which what is changed is written back.
    pub(crate) fn has_writers_caps(&self) -> bool
        ensures { result ≡ has_any self.now.caps for_writers }
    {
        has_any(self.caps, writers_caps())
    }
}

/// What of the caps that a client with these grants holds of the inode none of its callers is permitted, or None where
/// each is permitted to some caller. Needs no memory.
pub fn beyond(held: CapSet, grants: &Grants, inode: &Inode) -> Option<Finding>
    ensures { MatchOption result ((cap : Cap) → IsTrue (has held cap) → IsPermittedToSome inode.now grants.now cap) (IsBeyond held grants.now inode.now) }
{
    let caps = held.minus(permitted_to_some(grants, inode));
    if caps.is_empty() {
        return None;
    }
    let missing = least_access(caps);
    Some(Finding {
        caps,
        missing,
        denial: Denial::Own(inode.reasons(grants, missing)),
    })
}

/// The access that some of these caps need, to read before to write. Either permits the pin.
pub(crate) fn least_access(caps: CapSet) -> Option<Access>
    ensures { result ≡ least_access caps }
{
    if caps.has(Cap::P) || has_any(caps, readers_caps()) {
        Some(Access::Read)
    } else if has_any(caps, writers_caps()) {
        Some(Access::Write)
    } else {
        None
    }
}

// Whether some of these caps are in the set.
pub(crate) fn has_any(caps: CapSet, of: &[Cap]) -> bool
    ensures { result ≡ has_any caps of.now }
{
    of.iter().any(|cap| caps.has(*cap))
}

impl Inode<'_> {
    // Why each grant denies the access that is missing.
    fn reasons(&self, grants: &Grants, missing: Option<Access>) -> Rules
        requires { IfSome missing (λ access. (caller : Caller) → granted (asked self.now caller access) grants.now ≡ false) }
        ensures exact { result ≡ reasons self.now grants.now missing }
        ensures one_each { IfSome missing (λ access. length result ≡ length grants.now) }
    {
        match missing {
            Some(access) => self.each_reason(grants, access),
            None => Rules::from(ArrayVec::new()),
        }
    }

    // Why each grant denies an access that nobody is allowed.
    fn each_reason(&self, grants: &Grants, access: Access) -> Rules
        requires { (caller : Caller) → granted (asked self.now caller access) grants.now ≡ false }
        ensures exact { result ≡ filter_map (reason self.now access) grants.now }
        ensures one_each { length result ≡ length grants.now }
    {
        match self.standing(grants, access) {
            Standing::Denied { rules } => rules,
            _ => unreachable!(),
        }
    }
}
