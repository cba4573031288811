//! What the MDS of a release lets somebody behind a client's key do.

ghost use Rattle.std.specs.Prelude.{◌≡◌, position, IfOk};
ghost use Rattle.policy_analysis.specs.MdsStanding.{asked_by, attr_asked, by_grant, caller_for, denied, group_for, is_by_address};
ghost use Rattle.policy_analysis.specs.MdsStanding.{is_by_inode, is_sure, let_in, let_in_with, lets_in, reason, reasons, refused_to};
ghost use Rattle.policy_analysis.specs.MdsStanding.{nobody, standing_by, switches, user_for};

use crate::asking::{caller, mode_of, with_group};
use crate::callers::beside;
use capbits::Caller;
use capgrant::{Access, Attr};
use capspec::{FsName, TreePath};
use release_grants::{Grant, Switches};
use release_rules::{
    Asked, Question, Release, Rule, Rules, Verdict, changes_attributes, client_refuses, may_mount,
    user_of,
};
use std::alloc::{AllocError, Global};
use std::marker::Model;

/// What somebody behind a client's key wants to do in a cluster of a release.
pub struct MdsWanted<'a> {
    /// The release.
    pub release: Release,
    /// The name of the file system.
    pub fs: &'a FsName,
    /// The place of the inode.
    pub path: &'a TreePath,
    /// The access to it.
    pub access: Access,
    /// The inode's owner, group and mode, where they are known.
    pub known: &'a Option<Attr>,
}

// Not derived: so the proof of a function that drops one has a single call there.
impl Drop for MdsWanted<'_> {
    fn drop(self) {
        let MdsWanted {
            release: _,
            fs: _,
            path: _,
            access: _,
            known: _,
        } = self;
    }
}

impl<'a> Model for MdsWanted<'a> {
    ghost use Rattle.policy_analysis.specs.MdsStanding.{MdsWanted as Asking};

    ghost Value = { Asking };

    ghost view = { λ w. record { release = w.release; fs = w.fs.now; path = w.path.now; access = w.access; known = w.known.now } };
}

/// What the MDS of a release says to somebody behind a client's key.
pub struct MdsStanding {
    /// What it says, by the first grant that lets somebody in for sure, or else by the first that may. Where none does there is for each grant the
    /// first rule by which it denies it to its own user, or to user 1 where it is for all, in the group that the inode is to be
    /// given to, or else in the first that it lists; where nothing is known of the inode, of one of that user's with all mode bits.
    pub verdict: Verdict,
    /// Whether the inode's owner, group and mode decide, of which nothing is known.
    pub by_inode: bool,
    /// The number of the grant, from 1, by which the client itself refuses to change attributes to the first user whom that grant lets in.
    pub refused: Option<usize>,
}

// Not derived: so the proof of a function that drops one has a single call there.
impl Drop for MdsStanding {
    fn drop(self) {
        let MdsStanding {
            verdict: _,
            by_inode: _,
            refused: _,
        } = self;
    }
}

impl MdsWanted<'_> {
    /// What the MDS says by these grants. Only memory can be missing, for the rules of a denial.
    pub fn standing(&self, alloc: Global, grants: &[Grant]) -> Result<MdsStanding, AllocError>
        ensures { IfOk result (λ standing. standing ≡ standing_by self.now grants.now) }
    {
        if !may_mount(self.switches(), self.fs, grants) {
            return Ok(nobody(Verdict::CannotMount));
        }
        let Some(place) = self.first_sure(grants).or(self.first(grants)) else {
            return self.denied(alloc, grants);
        };
        let Some(grant) = grants.get(place) else {
            return self.denied(alloc, grants);
        };
        Ok(self.by_grant(grants, place + 1, grant))
    }

    // What is said where no grant lets anybody in.
    fn denied(&self, alloc: Global, grants: &[Grant]) -> Result<MdsStanding, AllocError>
        ensures { IfOk result (λ standing. standing ≡ denied self.now grants.now) }
    {
        let rules = self.reasons(alloc, grants)?;
        Ok(nobody(Verdict::Denied { rules }))
    }

    fn switches(&self) -> Switches
        ensures { result ≡ switches self.now }
    {
        self.release.switches()
    }

    // The place of the first grant that lets somebody in, wherever the client is and whatever the inode is.
    fn first_sure(&self, grants: &[Grant]) -> Option<usize>
        ensures { result ≡ position (is_sure self.now) grants.now }
    {
        grants.iter().position(|grant| self.is_sure(grant))
    }

    // The place of the first grant that may let somebody in.
    fn first(&self, grants: &[Grant]) -> Option<usize>
        ensures { result ≡ position (lets_in self.now) grants.now }
    {
        grants.iter().position(|grant| self.lets_in(grant))
    }

    fn lets_in(&self, grant: &Grant) -> bool
        ensures { result ≡ lets_in self.now grant.now }
    {
        self.let_in(grant).is_some()
    }

    fn is_sure(&self, grant: &Grant) -> bool
        ensures { result ≡ is_sure self.now grant.now }
    {
        self.lets_in(grant) && !self.is_by_inode(grant) && !self.is_by_address(grant)
    }

    // What is said where a grant, which has this number, lets somebody in.
    fn by_grant(&self, grants: &[Grant], number: usize, grant: &Grant) -> MdsStanding
        ensures { result ≡ by_grant self.now grants.now number grant.now }
    {
        let verdict = if self.is_by_address(grant) {
            Verdict::DependsOnAddress { grant: number }
        } else {
            Verdict::Allowed { grant: number }
        };
        MdsStanding {
            verdict,
            by_inode: self.is_by_inode(grant),
            refused: self.refused(grants, grant),
        }
    }

    // Whether the inode's owner, group and mode decide by the grant, and are not known.
    fn is_by_inode(&self, grant: &Grant) -> bool
        ensures { result ≡ is_by_inode self.now grant.now }
    {
        self.known.is_none()
            && user_of(self.switches(), grant).is_some()
            && !Asked::of_access(self.access).set_vxattr
    }

    // Whether it is not known that the client is in the grant's network.
    fn is_by_address(&self, grant: &Grant) -> bool
        ensures { result ≡ is_by_address self.now grant.now }
    {
        let attr = self.attr_asked(grant);
        let caller = self.caller_for(grant, None);
        self.asked_by(&attr, &caller).is_open(grant)
    }

    // By which grant the client itself refuses the first whom this one lets in.
    fn refused(&self, grants: &[Grant], grant: &Grant) -> Option<usize>
        ensures { result ≡ refused_to self.now grants.now grant.now (let_in self.now grant.now) }
    {
        let caller = self.let_in(grant)?;
        if changes_attributes(self.access) {
            let attr = self.attr_asked(grant);
            client_refuses(self.switches(), &self.asked_by(&attr, &caller), grants)
        } else {
            None
        }
    }

    // Whom the grant lets in: its user, in one of the groups that it lists.
    fn let_in(&self, grant: &Grant) -> Option<Caller>
        ensures { result ≡ let_in self.now grant.now }
    {
        let gids = grant.gids.as_slice();
        if gids.is_empty() {
            return self.let_in_with(grant, None);
        }
        for gid in gids {
            if let Some(caller) = self.let_in_with(grant, Some(*gid)) {
                return Some(caller);
            }
        }
        None
    }

    // The grant's user in this group, if the grant lets it in.
    fn let_in_with(&self, grant: &Grant, group: Option<u32>) -> Option<Caller>
        ensures { result ≡ let_in_with self.now grant.now group }
    {
        let attr = self.attr_asked(grant);
        let caller = self.caller_for(grant, group);
        let is_let_in = self
            .asked_by(&attr, &caller)
            .may_be_allowed_by(self.switches(), grant);
        if is_let_in { Some(caller) } else { None }
    }

    // Why each grant denies it.
    fn reasons(&self, alloc: Global, grants: &[Grant]) -> Result<Rules, AllocError>
        ensures { IfOk result (λ rules. rules ≡ reasons self.now grants.now) }
    {
        let mut rules = Rules::new(alloc);
        for grant in grants {
            rules.add(self.reason(grant))?;
        }
        Ok(rules)
    }

    // Why the grant denies it to its user.
    fn reason(&self, grant: &Grant) -> Option<Rule>
        ensures { result ≡ reason self.now grant.now }
    {
        let given = Asked::of_access(self.access).new_group;
        let attr = self.attr_asked(grant);
        let caller = self.caller_for(grant, group_for(given, grant.gids.as_slice()));
        self.asked_by(&attr, &caller)
            .first_failing(self.switches(), grant)
    }

    // What an MDS is asked by a caller of an inode.
    fn asked_by<'q>(&'q self, attr: &'q Attr, caller: &'q Caller) -> Question<'q>
        ensures { result ≡ asked_by self.now attr.now caller.now }
    {
        Question {
            fs: self.fs,
            caller,
            path: self.path,
            attr,
            asked: Asked::of_access(self.access),
            address: None,
        }
    }

    // The owner, the group and the mode where a grant is asked.
    fn attr_asked(&self, grant: &Grant) -> Attr
        ensures { result ≡ attr_asked self.now grant.now }
    {
        match self.known {
            Some(attr) => *attr,
            None => Attr {
                uid: self.user_for(grant),
                gid: 0,
                mode: mode_of(0o777),
            },
        }
    }

    // The grant's user in this further group.
    fn caller_for(&self, grant: &Grant, group: Option<u32>) -> Caller
        ensures { result ≡ caller_for self.now grant.now group }
    {
        let alone = caller(self.user_for(grant), beside(self.attr_asked(grant).gid));
        match group {
            Some(gid) => with_group(&alone, gid),
            None => alone,
        }
    }

    // The user whom a grant is for, or one of all.
    fn user_for(&self, grant: &Grant) -> u32
        ensures { result ≡ user_for self.now grant.now }
    {
        user_of(self.switches(), grant).unwrap_or(1)
    }
}

// Of the groups that a grant lists the one that the inode is to be given to, or else the first.
fn group_for(given: Option<u32>, gids: &[u32]) -> Option<u32>
    ensures { result ≡ group_for given gids.now }
{
    let first = gids.first().copied();
    let Some(gid) = given else {
        return first;
    };
    if gids.contains(&gid) { given } else { first }
}

// What is said where nobody may.
fn nobody(verdict: Verdict) -> MdsStanding
    ensures { result ≡ nobody verdict }
{
    MdsStanding {
        verdict,
        by_inode: false,
        refused: None,
    }
}
