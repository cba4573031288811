//! What one list of grants allows and another denies, by the rules of a release.

ghost use Rattle.std.specs.Prelude.{◌≡◌, ◌≤◌, length, Bool, IsTrue, IfErr, IfOk, IfSome, MatchOption};
ghost use Rattle.policy_analysis.specs.Comparing.{is_root, question_of};
ghost use Rattle.policy_analysis.specs.ComparingBy.{AreInOrder, CoversThere, CoversThereAs, CoversThereBut, IsAskedAs, IsChange, IsSameAs, SaysMore, attr_there, is_by_address, number_of, said, terms_of};

use crate::asking::{Accesses, mode_of};
use crate::search::Search;
use crate::stand_ins::{NotCompared, StandingIn};
use crate::vxattr::VxattrSearch;
use crate::witness::Witness;
use arrayvec::ArrayVec;
use capbits::{Caller, Groups};
use capgrant::{Access, Attr};
use capspec::Grant as OwnGrant;
use release_grants::{Grant, Grants, InNetwork, Switches, in_network};
use release_rules::{Asked, Question, Verdict, mds_verdict};
use std::alloc::{AllocError, Global};
use std::marker::Model;
use std::net::IpAddr;

/// By what grants of a release are judged.
#[derive(Clone, Copy)]
pub struct Terms {
    /// What the release does its own way.
    pub switches: Switches,
    /// The address of the client, where it is told.
    pub address: Option<IpAddr>,
}

/// Grants of a release, by what they are judged, and grants of this server that say the same.
pub struct MdsGrants {
    terms: Terms,
    grants: Grants,
    // Those that allow wherever the client is, or as it is told where that is.
    sure: StandIns,
    // Those, and the ones that allow in their network.
    maybe: StandIns,
}

// Those that stand in for others: for attributes, and for all other accesses.
struct StandIns {
    vxattr: Vec<OwnGrant>,
    others: Vec<OwnGrant>,
}

/// A question to which one list of grants says more than another: it allows what the other denies, or one of the two depends on the client's address.
pub struct Change<'a> {
    /// The question, and the number of the grant by which it is allowed, or may be.
    pub witness: Witness<'a>,
    /// Whether one of the two answers depends on the client's address, which is not told.
    pub by_address: bool,
}

// Not derived: so the proof of a function that drops one has a single call there.
impl Drop for MdsGrants {
    fn drop(self) {
        let MdsGrants {
            terms: _,
            grants: _,
            sure: _,
            maybe: _,
        } = self;
    }
}

// Not derived: so the proof of a function that drops one has a single call there.
impl Drop for StandIns {
    fn drop(self) {
        let StandIns {
            vxattr: _,
            others: _,
        } = self;
    }
}

// Not derived: so the proof of a function that drops one has a single call there.
impl Drop for Change<'_> {
    fn drop(self) {
        let Change {
            witness: _,
            by_address: _,
        } = self;
    }
}

impl Model for MdsGrants {
    ghost use Rattle.std.specs.Prelude.{◌≤◌, false, length, true};
    ghost use Rattle.policy_analysis.specs.StandIns.{AllStandIn};
    ghost use Rattle.policy_analysis.specs.ComparingBy.{Judged, terms_of};

    ghost Value = { Judged };

    ghost view = { λ g. record { terms = terms_of g.terms; grants = g.grants } };

    ghost invariant = { λ g. (length g.grants ≤ 16) × AllStandIn (terms_of g.terms) false g.grants g.sure.vxattr.items g.sure.others.items
        × AllStandIn (terms_of g.terms) true g.grants g.maybe.vxattr.items g.maybe.others.items };
}

impl MdsGrants {
    ghost use Rattle.policy_analysis.specs.ComparingBy.{depend_on_address};
    ghost use Rattle.policy_analysis.specs.StandIns.{IsNotCompared};

    /// These grants, made ready to be compared.
    pub fn of(alloc: Global, terms: Terms, grants: Grants) -> Result<MdsGrants, NotCompared>
        ensures ok { IfOk result (λ judged. (judged.terms ≡ terms_of terms) × (judged.grants ≡ grants)) }
        ensures err { IfErr result (IsNotCompared (terms_of terms) grants) }
    {
        if grants.as_slice().len() > 16 {
            return Err(NotCompared::TooLarge);
        }
        let sure = StandIns::of(alloc, terms, false, grants.as_slice())?;
        let maybe = StandIns::of(alloc, terms, true, grants.as_slice())?;
        Ok(MdsGrants {
            terms,
            grants,
            sure,
            maybe,
        })
    }

    /// Whether the answer to some question may depend on the client's address, which is not told: a grant has a network.
    pub fn depend_on_address(&self) -> bool
        ensures { result ≡ depend_on_address self.now }
    {
        for grant in self.grants.as_slice() {
            if let InNetwork::Unknown = in_network(&grant.network, self.terms.address) {
                return true;
            }
        }
        false
    }
}

impl StandIns {
    ghost use Rattle.policy_analysis.specs.StandIns.{AllStandIn, IsSaidMore, IsWhyNot, SaysAll};

    fn of(
        alloc: Global,
        terms: Terms,
        maybe: bool,
        grants: &[Grant],
    ) -> Result<StandIns, NotCompared>
        ensures ok { IfOk result (λ owns. AllStandIn (terms_of terms) maybe grants.now owns.vxattr.items owns.others.items) }
        ensures err { IfErr result (λ why. (vxattr : Bool) × IsWhyNot vxattr (terms_of terms) maybe grants.now why) }
    {
        let of_vxattr = StandingIn {
            switches: terms.switches,
            address: terms.address,
            maybe,
            vxattr: true,
        };
        let of_others = StandingIn {
            switches: terms.switches,
            address: terms.address,
            maybe,
            vxattr: false,
        };
        Ok(StandIns {
            vxattr: of_vxattr.stand_ins(alloc, grants)?,
            others: of_others.stand_ins(alloc, grants)?,
        })
    }

    // A question that these allow and the old ones deny; not one of root where that is not wanted.
    fn find<'a>(
        &'a self,
        alloc: Global,
        old: &StandIns,
        root: bool,
    ) -> Result<Option<Witness<'a>>, AllocError>
        requires few_old { (length old.now.others.items ≤ 16) × (length old.now.vxattr.items ≤ 16) }
        requires few_new { (length self.now.others.items ≤ 16) × (length self.now.vxattr.items ≤ 16) }
        ensures exact { IfOk result (λ found. MatchOption found (SaysAll old.now.vxattr.items old.now.others.items self.now.vxattr.items self.now.others.items root) (IsSaidMore old.now.vxattr.items old.now.others.items self.now.vxattr.items self.now.others.items)) }
        ensures asker { IfOk result (λ found. IfSome found (λ w. IsTrue (is_root w.caller) → IsTrue root)) }
    {
        let (before, after) = (old.others.as_slice(), self.others.as_slice());
        let search = Search::of(alloc, Accesses::OfMds, before, after)?;
        if let Some(witness) = search.find(alloc, root)? {
            return Ok(Some(witness));
        }
        let (before, after) = (old.vxattr.as_slice(), self.vxattr.as_slice());
        let search = VxattrSearch::of(alloc, before, after)?;
        search.find(alloc, root)
    }
}

impl Terms {
    // A question to which the new grants say more: that they allow it, or that they may. It is not one of root where that is not wanted.
    fn find<'a>(
        self,
        alloc: Global,
        old: &MdsGrants,
        new: &'a MdsGrants,
        root: bool,
    ) -> Result<Option<Change<'a>>, AllocError>
        requires terms { (old.now.terms ≡ terms_of self) × (new.now.terms ≡ terms_of self) }
        ensures exact { IfOk result (λ found. MatchOption found (CoversThereAs root (terms_of self) old.now.grants new.now.grants) (IsChange (terms_of self) old.now.grants new.now.grants)) }
        ensures asker { IfOk result (λ found. IfSome found (λ change. IsTrue (is_root change.witness.caller) → IsTrue root)) }
    {
        if let Some(witness) = new.sure.find(alloc, &old.sure, root)? {
            return Ok(Some(self.change(alloc, old, new, witness)?));
        }
        if let Some(witness) = new.maybe.find(alloc, &old.maybe, root)? {
            return Ok(Some(self.change(alloc, old, new, witness)?));
        }
        Ok(None)
    }

    // The change that a question shows: by which grant, and whether the address plays a part.
    fn change<'a>(
        self,
        alloc: Global,
        old: &MdsGrants,
        new: &MdsGrants,
        found: Witness<'a>,
    ) -> Result<Change<'a>, AllocError>
        requires { SaysMore (terms_of self) old.now.grants new.now.grants found }
        ensures change { IfOk result (IsChange (terms_of self) old.now.grants new.now.grants) }
        ensures asker { IfOk result (λ change. is_root change.witness.caller ≡ is_root found.entry.caller) }
    {
        let mut witness = as_asked_there(found);
        witness.path.are_names();
        let before = self.verdict(alloc, &witness, &old.grants)?;
        let after = self.verdict(alloc, &witness, &new.grants)?;
        witness.grant = number_of(&after);
        Ok(Change {
            witness,
            by_address: is_by_address(&after) || is_by_address(&before),
        })
    }

    // What an MDS says to the question of a witness by these grants.
    fn verdict(
        self,
        alloc: Global,
        witness: &Witness<'_>,
        grants: &Grants,
    ) -> Result<Verdict, AllocError>
        ensures { IfOk result (λ verdict. verdict ≡ said (terms_of self) grants.now (question_of witness.now)) }
    {
        let question = Question {
            fs: &witness.fs,
            caller: &witness.caller,
            path: witness.path,
            attr: &witness.attr,
            asked: Asked::of_access(witness.access),
            address: self.address,
        };
        mds_verdict(alloc, self.switches, &question, grants.as_slice())
    }
}

/// A question to which the new grants say more than the old ones, or None where there is none: on every file system, by every caller whose groups
/// stand in ascending order, for every path, owner, group, mode and access. The question is one of root only where no other shows it. Both are judged
/// by the same terms.
pub fn gained_by<'a>(
    alloc: Global,
    old: &MdsGrants,
    new: &'a MdsGrants,
) -> Result<Option<Change<'a>>, AllocError>
    requires { old.now.terms ≡ new.now.terms }
    ensures exact { IfOk result (λ found. MatchOption found (CoversThere new.now.terms old.now.grants new.now.grants) (IsChange new.now.terms old.now.grants new.now.grants)) }
    ensures root_last { IfOk result (λ found. IfSome found (λ change. IsTrue (is_root change.witness.caller) → CoversThereBut is_root new.now.terms old.now.grants new.now.grants)) }
{
    if let Some(change) = new.terms.find(alloc, old, new, false)? {
        return Ok(Some(change));
    }
    new.terms.find(alloc, old, new, true)
}

// The question as an MDS is asked it.
fn as_asked_there(mut found: Witness<'_>) -> Witness<'_>
    ensures { IsAskedAs found.entry result }
{
    found.caller = in_order(&found.caller);
    found.attr = attr_there(found.access, found.attr);
    found
}

// The inode of a question as an MDS is asked it: to change the group is a write there, so its owner may write.
fn attr_there(access: Access, attr: Attr) -> Attr
    ensures { result ≡ attr_there access attr }
{
    match access {
        Access::Chgrp(_) => Attr {
            uid: attr.uid,
            gid: attr.gid,
            mode: mode_of(0o600),
        },
        _ => attr,
    }
}

// The caller, its groups in ascending order.
fn in_order(caller: &Caller) -> Caller
    ensures same { IsSameAs caller.now result }
    ensures order { AreInOrder result.groups }
{
    let Ok(mut groups) = ArrayVec::try_from(caller.groups.as_slice()) else {
        unreachable!()
    };
    groups.as_mut_slice().sort_unstable();
    Caller {
        uid: caller.uid,
        gid: caller.gid,
        groups: Groups::from(groups),
    }
}

// The number of the grant by which the answer is what it is; none where it is denied.
fn number_of(verdict: &Verdict) -> u32
    requires { number_of verdict.now ≤ 16 }
    ensures { result ≡ number_of verdict.now }
{
    match verdict {
        Verdict::Allowed { grant } => *grant as u32,
        Verdict::DependsOnAddress { grant } => *grant as u32,
        _ => 0,
    }
}

fn is_by_address(verdict: &Verdict) -> bool
    ensures { result ≡ is_by_address verdict.now }
{
    matches!(verdict, Verdict::DependsOnAddress { .. })
}
