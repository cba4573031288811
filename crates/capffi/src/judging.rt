//! The eleven rules on the grants of a block, which are not copied out of there. The bodies of the same rules on a grant by itself stand
//! in `capgrant/src/question.rt`. The two are equal by their contracts: `first_failing` here and that of `Question` there both answer
//! `first_failing` of `capgrant/specs/Failing.antt`, of the question and the grant that they are asked.
ghost use Rattle.std.specs.Prelude.{◌≡◌, ◌<◌, ◌≤◌, ◌==◌, ℕ, List, IfSome, IsTrue, IsFalse, Some, true, false, length, find, not, position, drop};
ghost use Rattle.std.specs.List.{list_any};
ghost use Rattle.capbits.specs.Caller.{gids_of};
ghost use Rattle.capgrant.specs.Access.{is_read};
ghost use Rattle.capgrant.specs.Class.{needed_bit};
ghost use Rattle.capgrant.specs.Failing.{fails, fails_fsname, fails_gids, fails_mode_bits, fails_no_p, fails_no_s, fails_no_write, fails_not_own_group};
ghost use Rattle.capgrant.specs.Failing.{fails_not_owner, fails_path, fails_root_squash, fails_uid, first_failing};
ghost use Rattle.capgrant.specs.Question.{class_of, contains, is_owner, listed_gids};
ghost use Rattle.capgrant.specs.Rule.{attr_rules};
ghost use Rattle.capgrant.specs.Verdict.{allows, first_failures, verdict_of};
ghost use Rattle.capffi.specs.Blocks.{grants_in};
ghost use Rattle.capffi.specs.Answering.{answer_of};
ghost use Rattle.capffi.specs.ByBlock.{Tells, alone, number_of, open_rules, with_groups};

use crate::block::{Entry, MAX_ENTRIES};
use crate::given::{Given, split_grant};
use crate::passed::Answer;
use arrayvec::ArrayVec;
use capgrant::{Access, Attr, Rule, Rules, Verdict};
use std::marker::Model;

/// What is asked of each grant of a block.
#[derive(Drop)]
pub(crate) struct Case<'a> {
    /// The name of the file system.
    pub(crate) fs: &'a [u8],
    /// The path as a text, with a slash between each two names.
    pub(crate) path: &'a [u8],
    /// The groups of the caller besides its first.
    pub(crate) groups: &'a [u32],
    /// The uid and the first gid of the caller.
    pub(crate) uid: u32,
    pub(crate) gid: u32,
    /// The inode's owner, group and mode.
    pub(crate) attr: Attr,
    pub(crate) access: Access,
}

impl<'a> Model for Case<'a> {
    ghost use Rattle.capgrant.specs.Question.{Question as Asked};
    ghost use Rattle.capgrant.specs.Question.{question};
    ghost use Rattle.capffi.specs.Blocks.{bare_names};

    ghost Value = { Asked };

    ghost view = { λ c. question c.fs.now (record { uid = c.uid; gid = c.gid; groups = c.groups.now }) (bare_names c.path.now) c.attr c.access };
}

/// The verdict of the grants of some entries.
#[inline(always)]
pub(crate) fn verdict_of(case: &Case, entries: &[Entry], text: &[u8]) -> Verdict
    requires { length entries.now ≤ 16 }
    ensures { result ≡ verdict_of case.now (grants_in entries.now text.now) }
{
    match case.first_allowing(entries, text) {
        Some(place) => Verdict::Allowed {
            grant: place as u32 + 1,
        },
        None => denial(case, entries, text),
    }
}

// The verdict where no grant allows. Only here the grants are gone through for the rules that they fail by.
#[inline(never)]
fn denial(case: &Case, entries: &[Entry], text: &[u8]) -> Verdict
    requires none { position (allows case.now) (grants_in entries.now text.now) ≡ None }
    requires few { length entries.now ≤ 16 }
    ensures { result ≡ verdict_of case.now (grants_in entries.now text.now) }
{
    Verdict::Denied {
        rules: case.first_failures(entries, text),
    }
}

impl Case<'_> {
    /// Tells the answer, whatever the caller's groups, where that is soon seen: where the grants up to the first that allows, or all
    /// where none does, are for everybody.
    #[inline(always)]
    pub(crate) fn fast_verdict(&self, entries: &[Entry], text: &[u8], answer: &mut Answer) -> u32
        requires { length entries.now ≤ 16 }
        ensures { Tells (λ reported. (groups : List ℕ) → reported ≡ answer_of (verdict_of (with_groups self.now groups) (grants_in entries.now text.now))) answer.old answer.new result }
    {
        let mut rules = [0; MAX_ENTRIES];
        let mut rest = text;
        for (place, entry) in entries.iter().enumerate() {
            let (grant, behind) = split_grant(entry, rest);
            if !grant.is_for_all() {
                return 0;
            }
            let Some(rule) = self.first_failing_openly(&grant) else {
                return place as u32 + 1;
            };
            rules[place] = rule.number();
            rest = behind;
        }
        *answer = Answer {
            grant: 0,
            count: entries.len() as u32,
            rules,
        };
        17
    }

    /// The answer of a grant that is alone and for everybody, whatever the caller's groups: the number of the rule that it fails by, or 0
    /// where it allows.
    #[inline(always)]
    #[tactic(auto, using(crate::proofs::Entries::further_same))]
    pub(crate) fn fast_alone(&self, entries: &[Entry], text: &[u8]) -> Option<u8>
        requires { length entries.now ≡ 1 }
        ensures { IfSome result (λ rule. (groups : List ℕ) → alone rule ≡ answer_of (verdict_of (with_groups self.now groups) (grants_in entries.now text.now))) }
    {
        // These rules need no text.
        let (textless, _) = split_grant(&entries[0], &[]);
        let further = self.number_further(&textless);
        let (grant, _) = split_grant(&entries[0], text);
        if !grant.is_for_all() {
            return None;
        }
        Some(self.number_alone(&grant, further))
    }

    // The first rule by which a grant fails that is for everybody, if it does not allow the access.
    #[inline(always)]
    fn first_failing_openly(&self, grant: &Given) -> Option<Rule>
        ensures { result ≡ find (λ r. fails r self.now grant.now) open_rules }
    {
        if self.fails_fsname(grant) {
            return Some(Rule::FsName);
        }
        if !self.is_below(grant) {
            return Some(Rule::Path);
        }
        self.first_failing_further(grant)
    }

    // The number of that rule, or 0, where that of the rules behind the path is known.
    #[inline(always)]
    fn number_alone(&self, grant: &Given, further: u8) -> u8
        requires { further ≡ number_of (find (λ r. fails r self.now grant.now) (drop 2 open_rules)) }
        ensures { result ≡ number_of (find (λ r. fails r self.now grant.now) open_rules) }
    {
        if self.fails_fsname(grant) {
            Rule::FsName.number()
        } else if self.is_below(grant) {
            further
        } else {
            Rule::Path.number()
        }
    }

    // The number of the first of the rules behind that of the path, or 0.
    #[inline(always)]
    fn number_further(&self, grant: &Given) -> u8
        ensures { result ≡ number_of (find (λ r. fails r self.now grant.now) (drop 2 open_rules)) }
    {
        match self.first_failing_further(grant) {
            Some(rule) => rule.number(),
            None => 0,
        }
    }

    // The first of the rules behind that of the path.
    #[inline(always)]
    fn first_failing_further(&self, grant: &Given) -> Option<Rule>
        ensures { result ≡ find (λ r. fails r self.now grant.now) (drop 2 open_rules) }
    {
        if self.fails_no_write(grant) {
            return Some(Rule::NoWrite);
        }
        if self.fails_root_squash(grant) {
            return Some(Rule::RootSquash);
        }
        if self.fails_no_p(grant) {
            return Some(Rule::NoP);
        }
        if self.fails_no_s(grant) {
            return Some(Rule::NoS);
        }
        None
    }

    /// The place of the first grant that allows the access.
    #[inline(always)]
    fn first_allowing(&self, entries: &[Entry], text: &[u8]) -> Option<usize>
        ensures exact { result ≡ position (allows self.now) (grants_in entries.now text.now) }
        ensures within { IfSome result (λ place. place < length entries.now) }
    {
        let mut rest = text;
        for (place, entry) in entries.iter().enumerate() {
            let (grant, behind) = split_grant(entry, rest);
            if self.allows(&grant) {
                return Some(place);
            }
            rest = behind;
        }
        None
    }

    // The first rule by which each grant fails, of those that do.
    fn first_failures(&self, entries: &[Entry], text: &[u8]) -> Rules
        requires { length entries.now ≤ 16 }
        ensures { result ≡ first_failures self.now (grants_in entries.now text.now) }
    {
        let mut rules = ArrayVec::new();
        let mut rest = text;
        for entry in entries {
            let (grant, behind) = split_grant(entry, rest);
            if let Some(rule) = self.first_failing(&grant, self.is_below(&grant)) {
                rules.push(rule);
            }
            rest = behind;
        }
        Rules::from(rules)
    }

    // Whether the grant allows the access. What most grants fail by is their path, so it is tested first.
    #[inline(always)]
    #[tactic(auto, unfolding(capgrant::specs::Failing::first_failing))]
    fn allows(&self, grant: &Given) -> bool
        ensures { result ≡ allows self.now grant.now }
    {
        let is_above = self.is_below(grant);
        is_above && self.first_failing(grant, is_above).is_none()
    }

    // The first rule by which the grant fails, if it does not allow the access. Whether its directory lies above the inode is
    // known already.
    #[inline(always)]
    #[tactic(auto, unfolding(capgrant::specs::Failing::first_failing, capgrant::specs::Failing::fails_not_owner, capgrant::specs::Failing::fails_not_own_group, capgrant::specs::Failing::fails_mode_bits))]
    fn first_failing(&self, grant: &Given, is_above: bool) -> Option<Rule>
        requires { is_above ≡ not (fails_path self.now grant.now) }
        ensures { result ≡ first_failing self.now grant.now }
    {
        if self.fails_fsname(grant) {
            Some(Rule::FsName)
        } else if self.fails_uid(grant) {
            Some(Rule::Uid)
        } else if self.fails_gids(grant) {
            Some(Rule::Gids)
        } else if !is_above {
            Some(Rule::Path)
        } else if self.fails_no_write(grant) {
            Some(Rule::NoWrite)
        } else if self.fails_root_squash(grant) {
            Some(Rule::RootSquash)
        } else if self.fails_no_p(grant) {
            Some(Rule::NoP)
        } else if self.fails_no_s(grant) {
            Some(Rule::NoS)
        } else if grant.has_uid() {
            self.first_failing_by_attr(grant)
        } else {
            None
        }
    }

    // The first of the rules on the inode's owner, group and mode by which the grant fails.
    #[inline(never)]
    fn first_failing_by_attr(&self, grant: &Given) -> Option<Rule>
        ensures { result ≡ find (λ r. fails r self.now grant.now) attr_rules }
    {
        if self.fails_not_owner(grant) {
            Some(Rule::NotOwner)
        } else if self.fails_not_own_group(grant) {
            Some(Rule::NotOwnGroup)
        } else if self.fails_mode_bits(grant) {
            Some(Rule::ModeBits)
        } else {
            None
        }
    }

    #[tactic(auto, unfolding(capgrant::specs::Failing::fails_fsname))]
    fn fails_fsname(&self, grant: &Given) -> bool
        ensures { result ≡ fails_fsname self.now grant.now }
    {
        grant.is_for_other_fs(self.fs)
    }

    #[tactic(auto, unfolding(capgrant::specs::Failing::fails_uid))]
    fn fails_uid(&self, grant: &Given) -> bool
        ensures { result ≡ fails_uid self.now grant.now }
    {
        grant.is_for_other_uid(self.uid)
    }

    #[inline(never)]
    #[tactic(auto, using(capgrant::proofs::Listed::length_listed), unfolding(capgrant::specs::Failing::fails_gids))]
    fn fails_gids(&self, grant: &Given) -> bool
        ensures { result ≡ fails_gids self.now grant.now }
    {
        let listed = grant.gids();
        !listed.is_empty() && !(listed.contains(&self.gid) || contains_any(listed, self.groups))
    }

    // Whether the inode lies at or below the grant's path.
    #[inline(always)]
    #[tactic(auto, unfolding(capgrant::specs::Failing::fails_path))]
    fn is_below(&self, grant: &Given) -> bool
        ensures { result ≡ not (fails_path self.now grant.now) }
    {
        grant.is_above(self.path)
    }

    #[tactic(auto, unfolding(capgrant::specs::Failing::fails_no_write))]
    fn fails_no_write(&self, grant: &Given) -> bool
        ensures { result ≡ fails_no_write self.now grant.now }
    {
        !self.is_read() && !grant.has_w()
    }

    #[tactic(auto, unfolding(capgrant::specs::Failing::fails_root_squash))]
    fn fails_root_squash(&self, grant: &Given) -> bool
        ensures { result ≡ fails_root_squash self.now grant.now }
    {
        !self.is_read() && grant.root_squash() && (self.uid == 0 || self.gid == 0)
    }

    #[tactic(auto, unfolding(capgrant::specs::Failing::fails_no_p))]
    fn fails_no_p(&self, grant: &Given) -> bool
        ensures { result ≡ fails_no_p self.now grant.now }
    {
        matches!(self.access, Access::SetVxattr) && !grant.has_p()
    }

    #[tactic(auto, unfolding(capgrant::specs::Failing::fails_no_s))]
    fn fails_no_s(&self, grant: &Given) -> bool
        ensures { result ≡ fails_no_s self.now grant.now }
    {
        matches!(self.access, Access::Snapshot) && !grant.has_s()
    }

    #[tactic(auto, unfolding(capgrant::specs::Failing::fails_not_owner))]
    fn fails_not_owner(&self, grant: &Given) -> bool
        ensures { result ≡ fails_not_owner self.now grant.now }
    {
        let is_refused = match self.access {
            Access::Chmod | Access::Chgrp(_) => !self.is_owner(),
            Access::Chown(uid) => !self.is_owner() || uid != self.uid,
            Access::Read | Access::Write | Access::SetVxattr | Access::Snapshot => false,
        };
        grant.has_uid() && is_refused
    }

    #[tactic(auto, unfolding(capgrant::specs::Failing::fails_not_own_group))]
    fn fails_not_own_group(&self, grant: &Given) -> bool
        ensures { result ≡ fails_not_own_group self.now grant.now }
    {
        match self.access {
            Access::Chgrp(gid) => grant.has_uid() && !self.is_listed_gid(grant, gid),
            _ => false,
        }
    }

    #[tactic(auto, unfolding(capgrant::specs::Failing::fails_mode_bits))]
    fn fails_mode_bits(&self, grant: &Given) -> bool
        ensures { result ≡ fails_mode_bits self.now grant.now }
    {
        match self.needed_bit(grant) {
            Some(bit) => grant.has_uid() && self.attr.mode.bits() & bit == 0,
            None => false,
        }
    }

    // The bit of the mode that the caller's class needs for the access.
    fn needed_bit(&self, grant: &Given) -> Option<u16>
        ensures { result ≡ needed_bit self.now.access (class_of self.now grant.now) }
    {
        let (read, write) = if self.is_owner() {
            (0o400, 0o200)
        } else if self.is_listed_gid(grant, self.attr.gid) {
            (0o040, 0o020)
        } else {
            (0o004, 0o002)
        };
        match self.access {
            Access::Read => Some(read),
            Access::Write | Access::SetVxattr | Access::Snapshot => Some(write),
            Access::Chmod | Access::Chown(_) | Access::Chgrp(_) => None,
        }
    }

    fn is_read(&self) -> bool
        ensures { result ≡ is_read self.now.access }
    {
        matches!(self.access, Access::Read)
    }

    fn is_owner(&self) -> bool
        ensures { result ≡ is_owner self.now }
    {
        self.uid == self.attr.uid
    }

    // Whether this is one of the caller's gids that the grant lists.
    #[tactic(auto, using(capgrant::proofs::Listed::contains_listed))]
    fn is_listed_gid(&self, grant: &Given, gid: u32) -> bool
        ensures { result ≡ contains (listed_gids self.now.caller grant.now) gid }
    {
        grant.gids().contains(&gid) && (self.gid == gid || self.groups.contains(&gid))
    }
}

// Whether one of the gids is listed.
fn contains_any(listed: &[u32], gids: &[u32]) -> bool
    ensures { result ≡ list_any (contains listed.now) gids.now }
{
    gids.iter().any(|gid| listed.contains(gid))
}
