//! The rules of a grant, tested on one question. The library for C tests them on the grants of a block too, which it does not copy out
//! of there, by bodies of its own in `capffi/src/judging.rt`. The two are equal by their contracts: `first_failing` here and that of
//! `Case` there both answer `first_failing` of `specs/Failing.antt`, of the question and the grant that they are asked.
ghost use Rattle.std.specs.Prelude.{◌≡◌};
ghost use Rattle.capgrant.specs.Question.{contains, listed_gids};

use crate::access::{Access, Attr};
use crate::class::Class;
use crate::gids::has_listed_gid;
use crate::rule::Rule;
use crate::rules::{MAX_RULES, Rules};
use arrayvec::ArrayVec;
use capbits::Caller;
use capspec::{FsName, Grant, SharedPrefix};
use std::marker::Model;

/// What is asked of each grant: whether, on this file system, this caller may make this access to an inode.
#[derive(Drop)]
pub struct Question<'a> {
    /// The name of the file system.
    pub fs: &'a FsName,
    /// Who asks.
    pub caller: &'a Caller,
    /// The names of the inode, from the root down.
    pub path: &'a [&'a [u8]],
    /// The owner, the group and the mode of the inode.
    pub attr: &'a Attr,
    /// What is asked for.
    pub access: Access,
}

impl<'a> Model for Question<'a> {
    ghost use Rattle.std.specs.Prelude.{map};
    ghost use Rattle.capgrant.specs.Question.{Question as Asked};
    ghost use Rattle.capgrant.specs.Question.{question};

    ghost Value = { Asked };

    ghost view = { λ q. question q.fs.now q.caller.now (map (λ name. name.now) q.path.now) q.attr.now q.access };
}

impl Question<'_> {
    ghost use Rattle.std.specs.Prelude.{◌≡◌, ◌≤◌, find, length, not, position, IfSome};
    ghost use Rattle.capspec.specs.Paths.{slashed};
    ghost use Rattle.capspec.specs.SharedPrefix.{AreSharedPrefixes, IsSharedPrefix};
    ghost use Rattle.capgrant.specs.Access.{is_read};
    ghost use Rattle.capgrant.specs.Question.{class_of};
    ghost use Rattle.capgrant.specs.Failing.{fails, fails_fsname, fails_gids, fails_mode_bits, fails_no_p, fails_no_s, fails_no_write, fails_not_own_group};
    ghost use Rattle.capgrant.specs.Failing.{fails_not_owner, fails_path, fails_root_squash, fails_uid, first_failing};
    ghost use Rattle.capgrant.specs.Rule.{access_rules, attr_rules};
    ghost use Rattle.capgrant.specs.Verdict.{allows, first_failures, granted, may_allow};

    /// The place of the first grant that allows the access, the first at 0. Needs no memory.
    pub fn first_allowing(&self, grants: &[Grant]) -> Option<usize>
        ensures { result ≡ position (allows self.now) grants.now }
    {
        grants.iter().position(|grant| self.allows(grant))
    }

    /// The first rule by which each grant fails, of those that do.
    pub(crate) fn first_failures(&self, grants: &[Grant]) -> Rules
        requires { length grants.now ≤ MAX_RULES }
        ensures { result ≡ first_failures self.now grants.now }
    {
        let mut rules = ArrayVec::new();
        for grant in grants {
            if let Some(rule) = self.first_failing(grant, self.is_below(grant)) {
                rules.push(rule);
            }
        }
        Rules::from(rules)
    }

    /// Whether the grant allows the access. Needs no memory.
    #[inline(always)]
    pub fn allows(&self, grant: &Grant) -> bool
        ensures { result ≡ allows self.now grant.now }
    {
        self.allows_where(grant, self.is_below(grant))
    }

    // Whether the grant allows the access, where it is known whether the inode lies at or below the grant's path. Most grants fail by
    // their path, so it is looked at first.
    #[inline(always)]
    #[tactic(auto, unfolding(crate::specs::Failing::first_failing))]
    fn allows_where(&self, grant: &Grant, is_below: bool) -> bool
        requires { is_below ≡ not (fails_path self.now grant.now) }
        ensures { result ≡ allows self.now grant.now }
    {
        is_below && self.first_failing(grant, is_below).is_none()
    }

    // Whether the grant fails by none of the rules that look at no access, where it is known whether the inode lies at or below its path.
    #[inline(always)]
    fn may_allow(&self, grant: &Grant, is_below: bool) -> bool
        requires { is_below ≡ not (fails_path self.now grant.now) }
        ensures { result ≡ may_allow self.now grant.now }
    {
        is_below && !self.fails_fsname(grant) && !self.fails_uid(grant) && !self.fails_gids(grant)
    }

    // Whether the grant allows the access, where it is known whether it fails by a rule that looks at no access.
    #[inline(always)]
    #[tactic(auto, using(crate::proofs::Parted::allows_parted))]
    fn allows_passed(&self, grant: &Grant, passed: bool) -> bool
        requires { passed ≡ may_allow self.now grant.now }
        ensures { result ≡ allows self.now grant.now }
    {
        passed && self.first_failing_by_access(grant).is_none()
    }

    /// Whether some grant allows what is asked, and whether some grant allows the other access, to the same caller and of the same
    /// inode. The rules that look at no access are tested once, up to the grant by which both are known.
    pub(crate) fn both_granted(&self, other: &Question<'_>, grants: &[Grant]) -> (bool, bool)
        requires { other.now ≡ record self.now { access = other.now.access } }
        ensures one { result.0 ≡ granted self.now grants.now }
        ensures other { result.1 ≡ granted other.now grants.now }
    {
        let (mut one, mut two) = (false, false);
        for grant in grants {
            if one && two {
                return (true, true);
            }
            let passed = self.may_allow(grant, self.is_below(grant));
            one = one || self.allows_passed(grant, passed);
            two = two || other.allows_passed(grant, passed);
        }
        (one, two)
    }

    /// Whether some grant allows what is asked, and whether some grant allows the other access, where it is known of the first grants how
    /// much of their paths the inode's path begins with.
    pub(crate) fn both_granted_by_prefixes(
        &self,
        other: &Question<'_>,
        grants: &[Grant],
        shared_prefix: &[SharedPrefix],
    ) -> (bool, bool)
        requires shared_prefix { AreSharedPrefixes self.now.path grants.now shared_prefix.now }
        requires other { other.now ≡ record self.now { access = other.now.access } }
        ensures one { result.0 ≡ granted self.now grants.now }
        ensures other { result.1 ≡ granted other.now grants.now }
    {
        let (mut one, mut two) = (false, false);
        for (place, grant) in grants.iter().enumerate() {
            if one && two {
                return (true, true);
            }
            let is_below = self.is_below_by_prefix(grant, shared_prefix.get(place).copied());
            let passed = self.may_allow(grant, is_below);
            one = one || self.allows_passed(grant, passed);
            two = two || other.allows_passed(grant, passed);
        }
        (one, two)
    }

    // The first rule by which the grant fails, if it does not allow the access. Whether the inode lies at or below its path
    // is known already.
    #[tactic(auto, unfolding(crate::specs::Failing::first_failing))]
    #[inline(always)]
    fn first_failing(&self, grant: &Grant, is_below: bool) -> Option<Rule>
        requires { is_below ≡ not (fails_path self.now grant.now) }
        ensures { result ≡ first_failing self.now grant.now }
    {
        if self.fails_fsname(grant) {
            Some(Rule::FsName)
        } else if self.fails_uid(grant) {
            Some(Rule::Uid)
        } else if self.fails_gids(grant) {
            Some(Rule::Gids)
        } else if !is_below {
            Some(Rule::Path)
        } else {
            self.first_failing_by_access(grant)
        }
    }

    // The first of the rules that look at the access by which the grant fails.
    #[tactic(auto, unfolding(crate::specs::Failing::fails_not_owner, crate::specs::Failing::fails_not_own_group, crate::specs::Failing::fails_mode_bits))]
    #[inline(always)]
    fn first_failing_by_access(&self, grant: &Grant) -> Option<Rule>
        ensures { result ≡ find (λ r. fails r self.now grant.now) access_rules }
    {
        if self.fails_no_write(grant) {
            Some(Rule::NoWrite)
        } else if self.fails_root_squash(grant) {
            Some(Rule::RootSquash)
        } else if self.fails_no_p(grant) {
            Some(Rule::NoP)
        } else if self.fails_no_s(grant) {
            Some(Rule::NoS)
        } else if grant.uid.is_some() {
            self.first_failing_by_attr(grant)
        } else {
            None
        }
    }

    // The first of the rules on the inode's owner, group and mode by which the grant fails.
    #[inline(never)]
    fn first_failing_by_attr(&self, grant: &Grant) -> Option<Rule>
        ensures { result ≡ find (λ r. fails r self.now grant.now) attr_rules }
    {
        if self.fails_not_owner(grant) {
            Some(Rule::NotOwner)
        } else if self.fails_not_own_group(grant) {
            Some(Rule::NotOwnGroup)
        } else if self.fails_mode_bits(grant) {
            Some(Rule::ModeBits)
        } else {
            None
        }
    }

    #[tactic(auto, unfolding(crate::specs::Failing::fails_fsname))]
    fn fails_fsname(&self, grant: &Grant) -> bool
        ensures { result ≡ fails_fsname self.now grant.now }
    {
        match &grant.fsname {
            Some(name) => name.as_bytes() != self.fs.as_bytes(),
            None => false,
        }
    }

    #[tactic(auto, unfolding(crate::specs::Failing::fails_uid))]
    fn fails_uid(&self, grant: &Grant) -> bool
        ensures { result ≡ fails_uid self.now grant.now }
    {
        match grant.uid {
            Some(uid) => uid != self.caller.uid,
            None => false,
        }
    }

    #[tactic(auto, using(crate::proofs::Listed::length_listed), unfolding(crate::specs::Failing::fails_gids))]
    fn fails_gids(&self, grant: &Grant) -> bool
        ensures { result ≡ fails_gids self.now grant.now }
    {
        !grant.gids.as_slice().is_empty() && !has_listed_gid(self.caller, grant)
    }

    // Whether the inode lies at or below the grant's path, where it may be known how much of that path the inode's path begins with.
    #[inline(always)]
    #[tactic(auto, unfolding(crate::specs::Failing::fails_path))]
    fn is_below_by_prefix(&self, grant: &Grant, shared_prefix: Option<SharedPrefix>) -> bool
        requires { IfSome shared_prefix (λ shared_prefix. IsSharedPrefix self.now.path (slashed grant.now.path) shared_prefix) }
        ensures { result ≡ not (fails_path self.now grant.now) }
    {
        match shared_prefix {
            Some(shared_prefix) => grant.path.leads_by_prefix(shared_prefix),
            None => self.is_below(grant),
        }
    }

    // Whether the inode lies at or below the grant's path.
    #[inline(always)]
    #[tactic(auto, unfolding(crate::specs::Failing::fails_path))]
    fn is_below(&self, grant: &Grant) -> bool
        ensures { result ≡ not (fails_path self.now grant.now) }
    {
        grant.path.leads_to(self.path)
    }

    #[tactic(auto, unfolding(crate::specs::Failing::fails_no_write))]
    fn fails_no_write(&self, grant: &Grant) -> bool
        ensures { result ≡ fails_no_write self.now grant.now }
    {
        !self.is_read() && !grant.flags.has_w()
    }

    #[tactic(auto, unfolding(crate::specs::Failing::fails_root_squash))]
    fn fails_root_squash(&self, grant: &Grant) -> bool
        ensures { result ≡ fails_root_squash self.now grant.now }
    {
        !self.is_read() && grant.root_squash && (self.caller.uid == 0 || self.caller.gid == 0)
    }

    #[tactic(auto, unfolding(crate::specs::Failing::fails_no_p))]
    fn fails_no_p(&self, grant: &Grant) -> bool
        ensures { result ≡ fails_no_p self.now grant.now }
    {
        matches!(self.access, Access::SetVxattr) && !grant.flags.has_p()
    }

    #[tactic(auto, unfolding(crate::specs::Failing::fails_no_s))]
    fn fails_no_s(&self, grant: &Grant) -> bool
        ensures { result ≡ fails_no_s self.now grant.now }
    {
        matches!(self.access, Access::Snapshot) && !grant.flags.has_s()
    }

    #[tactic(auto, unfolding(crate::specs::Failing::fails_not_owner))]
    fn fails_not_owner(&self, grant: &Grant) -> bool
        ensures { result ≡ fails_not_owner self.now grant.now }
    {
        let is_owner = self.caller.uid == self.attr.uid;
        let is_refused = match self.access {
            Access::Chmod | Access::Chgrp(_) => !is_owner,
            Access::Chown(uid) => !is_owner || uid != self.caller.uid,
            Access::Read | Access::Write | Access::SetVxattr | Access::Snapshot => false,
        };
        grant.uid.is_some() && is_refused
    }

    #[tactic(auto, unfolding(crate::specs::Failing::fails_not_own_group))]
    fn fails_not_own_group(&self, grant: &Grant) -> bool
        ensures { result ≡ fails_not_own_group self.now grant.now }
    {
        match self.access {
            Access::Chgrp(gid) => grant.uid.is_some() && !is_listed_gid(self.caller, grant, gid),
            _ => false,
        }
    }

    #[tactic(auto, unfolding(crate::specs::Failing::fails_mode_bits))]
    fn fails_mode_bits(&self, grant: &Grant) -> bool
        ensures { result ≡ fails_mode_bits self.now grant.now }
    {
        if grant.uid.is_none() {
            return false;
        }
        let needed = match self.access {
            Access::Read => self.class(grant).read_bit(),
            Access::Write | Access::SetVxattr | Access::Snapshot => self.class(grant).write_bit(),
            Access::Chmod | Access::Chown(_) | Access::Chgrp(_) => return false,
        };
        self.attr.mode.bits() & needed == 0
    }

    fn is_read(&self) -> bool
        ensures { result ≡ is_read self.now.access }
    {
        matches!(self.access, Access::Read)
    }

    // Which bits of the inode's mode speak of the caller.
    fn class(&self, grant: &Grant) -> Class
        ensures { result ≡ class_of self.now grant.now }
    {
        if self.caller.uid == self.attr.uid {
            Class::Owner
        } else if is_listed_gid(self.caller, grant, self.attr.gid) {
            Class::Group
        } else {
            Class::Other
        }
    }
}

// Whether this is one of the caller's gids that the grant lists.
#[tactic(auto, using(crate::proofs::Listed::contains_listed))]
fn is_listed_gid(caller: &Caller, grant: &Grant, gid: u32) -> bool
    ensures { result ≡ contains (listed_gids caller.now grant.now) gid }
{
    grant.gids.as_slice().contains(&gid) && caller.has_gid(gid)
}
