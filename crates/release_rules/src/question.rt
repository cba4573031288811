//! The rules of a grant, tested on one question.
ghost use Rattle.std.specs.Prelude.{◌≡◌};
ghost use Rattle.std.specs.List.{list_any};
ghost use Rattle.capbits.specs.Caller.{gids_of};
ghost use Rattle.capgrant.specs.Question.{contains};
ghost use Rattle.release_rules.specs.Question.{is_in_groups, is_own_group};
ghost use Rattle.release_rules.specs.Failing.{is_for_other_fs, is_root, is_user, user_of};

use crate::asked::Asked;
use crate::rule::Rule;
use capbits::Caller;
use capgrant::Attr;
use capspec::{FsName, TreePath};
use release_grants::{Grant, InNetwork, Switches, directory_of, in_network, lies_in, path_text};
use std::marker::Model;
use std::net::IpAddr;

// Every rule, in the order of their numbers.
const ALL_RULES: [Rule; 13] = [
    Rule::FsName,
    Rule::Uid,
    Rule::Gids,
    Rule::Path,
    Rule::NoWrite,
    Rule::RootSquash,
    Rule::NoP,
    Rule::NoS,
    Rule::NotOwner,
    Rule::NotOwnGroup,
    Rule::ModeBits,
    Rule::NoF,
    Rule::Network,
];

// All but that of the path.
const RULES_BUT_PATH: [Rule; 12] = [
    Rule::FsName,
    Rule::Uid,
    Rule::Gids,
    Rule::NoWrite,
    Rule::RootSquash,
    Rule::NoP,
    Rule::NoS,
    Rule::NotOwner,
    Rule::NotOwnGroup,
    Rule::ModeBits,
    Rule::NoF,
    Rule::Network,
];

/// What is asked of the grants of a client: whether, on this file system, this caller may do this with an inode.
pub struct Question<'a> {
    /// The name of the file system.
    pub fs: &'a FsName,
    /// Who asks.
    pub caller: &'a Caller,
    /// The names of the inode, from the root down.
    pub path: &'a TreePath,
    /// The owner, the group and the mode of the inode.
    pub attr: &'a Attr,
    /// What is asked for.
    pub asked: Asked,
    /// The address that the client comes from, where it is told.
    pub address: Option<IpAddr>,
}

// By hand, so that whoever lets one go has one call to prove.
impl Drop for Question<'_> {
    fn drop(self) {
        let Question {
            fs: _,
            caller: _,
            path: _,
            attr: _,
            asked: _,
            address: _,
        } = self;
    }
}

impl<'a> Model for Question<'a> {
    ghost use Rattle.std.specs.Prelude.{option_map};
    ghost use Rattle.release_grants.specs.Networks.{address_of};
    ghost use Rattle.release_rules.specs.Question.{Question as Asking};

    ghost Value = { Asking };

    ghost view = { λ q. record { fs = q.fs.now; caller = q.caller.now; path = q.path.now; attr = q.attr.now; asked = q.asked; address = option_map address_of q.address } };
}

impl Question<'_> {
    ghost use Rattle.std.specs.Prelude.{◌≡◌, ◌≤◌, find, not};
    ghost use Rattle.release_rules.specs.Question.{class_unit, is_owner};
    ghost use Rattle.release_rules.specs.Failing.{fails, fails_fsname, fails_gids, fails_mode_bits, fails_network, fails_no_f, fails_no_p, fails_no_s};
    ghost use Rattle.release_rules.specs.Failing.{fails_no_write, fails_not_own_group, fails_not_owner, fails_path, fails_root_squash, fails_uid};
    ghost use Rattle.release_rules.specs.Failing.{first_failing, lacks, may_allow_somewhere};
    ghost use Rattle.release_rules.specs.Verdicts.{allows, is_open, may_allow};
    ghost use Rattle.release_rules.specs.Clients.{is_for, refuses};

    /// Whether the grant allows what is asked, wherever the client is.
    pub(crate) fn is_allowed_by(&self, switches: Switches, grant: &Grant) -> bool
        ensures { result ≡ allows switches self.now grant.now }
    {
        self.may_be_allowed_by(switches, grant) && !self.is_open(grant)
    }

    /// Whether the grant allows what is asked, if the client is in its network.
    pub fn may_be_allowed_by(&self, switches: Switches, grant: &Grant) -> bool
        ensures { result ≡ may_allow switches self.now grant.now }
    {
        self.first_failing(switches, grant).is_none()
    }

    /// Whether the grant allows what is asked of what lies in its directory, if the client is in its network.
    #[tactic(auto, unfolding(crate::specs::Failing::may_allow_somewhere))]
    pub(crate) fn may_be_allowed_somewhere(&self, switches: Switches, grant: &Grant) -> bool
        ensures { result ≡ may_allow_somewhere switches self.now grant.now }
    {
        let failing = self.first_failing_of(&RULES_BUT_PATH, switches, grant);
        failing.is_none()
    }

    /// Whether it is not known that the client is in the grant's network.
    pub fn is_open(&self, grant: &Grant) -> bool
        ensures { result ≡ is_open self.now grant.now }
    {
        matches!(in_network(&grant.network, self.address), InNetwork::Unknown)
    }

    /// Whether the grant is for the caller and the inode, wherever the client is.
    #[tactic(auto, unfolding(crate::specs::Clients::is_for))]
    pub(crate) fn is_met_by(&self, switches: Switches, grant: &Grant) -> bool
        ensures { result ≡ is_for switches self.now grant.now }
    {
        !self.fails_fsname(switches, grant)
            && !self.fails_uid(switches, grant)
            && !self.fails_gids(switches, grant)
            && !self.fails_path(switches, grant)
    }

    /// Whether by the grant no attribute may be changed.
    #[tactic(auto, unfolding(crate::specs::Clients::refuses))]
    pub(crate) fn is_refused_by(&self, grant: &Grant) -> bool
        ensures { result ≡ refuses self.now grant.now }
    {
        !grant.flags.has_w() || (grant.root_squash && is_root(self.caller))
    }

    /// The first rule by which the grant fails, if there is one.
    #[tactic(auto, unfolding(crate::specs::Failing::first_failing))]
    pub fn first_failing(&self, switches: Switches, grant: &Grant) -> Option<Rule>
        ensures { result ≡ first_failing switches self.now grant.now }
    {
        self.first_failing_of(&ALL_RULES, switches, grant)
    }

    // The first of these rules by which the grant fails, if there is one.
    fn first_failing_of(&self, rules: &[Rule], switches: Switches, grant: &Grant) -> Option<Rule>
        ensures { result ≡ find (λ r. fails r switches self.now grant.now) rules.now }
    {
        rules
            .iter()
            .copied()
            .find(|rule| self.fails(*rule, switches, grant))
    }

    // Whether the grant fails by the rule.
    fn fails(&self, rule: Rule, switches: Switches, grant: &Grant) -> bool
        ensures { result ≡ fails rule switches self.now grant.now }
    {
        match rule {
            Rule::FsName => self.fails_fsname(switches, grant),
            Rule::Uid => self.fails_uid(switches, grant),
            Rule::Gids => self.fails_gids(switches, grant),
            Rule::Path => self.fails_path(switches, grant),
            Rule::NoWrite => self.fails_no_write(grant),
            Rule::RootSquash => self.fails_root_squash(grant),
            Rule::NoP => self.fails_no_p(grant),
            Rule::NoS => self.fails_no_s(grant),
            Rule::NotOwner => self.fails_not_owner(switches, grant),
            Rule::NotOwnGroup => self.fails_not_own_group(switches, grant),
            Rule::ModeBits => self.fails_mode_bits(switches, grant),
            Rule::NoF => self.fails_no_f(grant),
            Rule::Network => self.fails_network(grant),
        }
    }

    #[tactic(auto, unfolding(crate::specs::Failing::fails_fsname))]
    fn fails_fsname(&self, switches: Switches, grant: &Grant) -> bool
        ensures { result ≡ fails_fsname switches self.now grant.now }
    {
        switches.judges_fsname && is_for_other_fs(self.fs, grant)
    }

    #[tactic(auto, unfolding(crate::specs::Failing::fails_uid))]
    fn fails_uid(&self, switches: Switches, grant: &Grant) -> bool
        ensures { result ≡ fails_uid switches self.now grant.now }
    {
        match user_of(switches, grant) {
            Some(uid) => !is_user(self.caller.uid, uid),
            None => false,
        }
    }

    #[tactic(auto, unfolding(crate::specs::Failing::fails_gids))]
    fn fails_gids(&self, switches: Switches, grant: &Grant) -> bool
        ensures { result ≡ fails_gids switches self.now grant.now }
    {
        let is_for_one = user_of(switches, grant).is_some();
        is_for_one && !grant.gids.as_slice().is_empty() && !lists_one_of(grant, self.caller)
    }

    #[tactic(auto, unfolding(crate::specs::Failing::fails_path))]
    fn fails_path(&self, switches: Switches, grant: &Grant) -> bool
        ensures { result ≡ fails_path switches self.now grant.now }
    {
        match &grant.path {
            Some(path) => !lies_in(
                directory_of(switches, path.as_bytes()),
                path_text(self.path),
            ),
            None => false,
        }
    }

    #[tactic(auto, unfolding(crate::specs::Failing::fails_no_write))]
    fn fails_no_write(&self, grant: &Grant) -> bool
        ensures { result ≡ fails_no_write self.now grant.now }
    {
        self.asked.write && !grant.flags.has_w()
    }

    #[tactic(auto, unfolding(crate::specs::Failing::fails_root_squash))]
    fn fails_root_squash(&self, grant: &Grant) -> bool
        ensures { result ≡ fails_root_squash self.now grant.now }
    {
        self.asked.write && grant.root_squash && is_root(self.caller)
    }

    #[tactic(auto, unfolding(crate::specs::Failing::fails_no_p))]
    fn fails_no_p(&self, grant: &Grant) -> bool
        ensures { result ≡ fails_no_p self.now grant.now }
    {
        self.asked.set_vxattr && !grant.flags.has_p()
    }

    #[tactic(auto, unfolding(crate::specs::Failing::fails_no_s))]
    fn fails_no_s(&self, grant: &Grant) -> bool
        ensures { result ≡ fails_no_s self.now grant.now }
    {
        self.asked.snapshot && !grant.flags.has_s()
    }

    #[tactic(auto, unfolding(crate::specs::Failing::fails_not_owner))]
    fn fails_not_owner(&self, switches: Switches, grant: &Grant) -> bool
        ensures { result ≡ fails_not_owner switches self.now grant.now }
    {
        let is_changed = self.asked.new_owner.is_some() || self.asked.new_group.is_some();
        let is_given_away = match self.asked.new_owner {
            Some(uid) => uid != self.caller.uid,
            None => false,
        };
        user_of(switches, grant).is_some() && ((is_changed && !self.is_owner()) || is_given_away)
    }

    #[tactic(auto, unfolding(crate::specs::Failing::fails_not_own_group))]
    fn fails_not_own_group(&self, switches: Switches, grant: &Grant) -> bool
        ensures { result ≡ fails_not_own_group switches self.now grant.now }
    {
        let is_foreign = match self.asked.new_group {
            Some(gid) => !is_own_group(self.caller, grant, gid),
            None => false,
        };
        user_of(switches, grant).is_some() && is_foreign
    }

    #[tactic(auto, unfolding(crate::specs::Failing::fails_mode_bits))]
    fn fails_mode_bits(&self, switches: Switches, grant: &Grant) -> bool
        ensures { result ≡ fails_mode_bits switches self.now grant.now }
    {
        user_of(switches, grant).is_some()
            && (self.lacks(grant, self.asked.read, 4)
                || self.lacks(grant, self.asked.write, 2)
                || self.lacks(grant, self.asked.execute, 1))
    }

    // Whether this is asked for, and the mode lacks the bit for it in the caller's class.
    fn lacks(&self, grant: &Grant, asked: bool, bit: u16) -> bool
        requires { bit ≤ 4 }
        ensures { result ≡ lacks self.now grant.now asked bit }
    {
        asked && self.attr.mode.bits() & (bit * self.class_unit(grant)) == 0
    }

    #[tactic(auto, unfolding(crate::specs::Failing::fails_no_f))]
    fn fails_no_f(&self, grant: &Grant) -> bool
        ensures { result ≡ fails_no_f self.now grant.now }
    {
        self.asked.full && !grant.flags.has_f()
    }

    #[tactic(auto, unfolding(crate::specs::Failing::fails_network))]
    fn fails_network(&self, grant: &Grant) -> bool
        ensures { result ≡ fails_network self.now grant.now }
    {
        matches!(in_network(&grant.network, self.address), InNetwork::No)
    }

    fn is_owner(&self) -> bool
        ensures { result ≡ is_owner self.now }
    {
        self.caller.uid == self.attr.uid
    }

    // The lowest of the three bits of the mode that speak of the caller.
    fn class_unit(&self, grant: &Grant) -> u16
        ensures value { result ≡ class_unit self.now grant.now }
        ensures fits { result ≤ 64 }
    {
        if self.is_owner() {
            64
        } else if is_own_group(self.caller, grant, self.attr.gid) {
            8
        } else {
            1
        }
    }
}

/// The user that a grant is for by the rules of a release, if it is for one.
#[tactic(auto, unfolding(crate::specs::Failing::user_of))]
pub fn user_of(switches: Switches, grant: &Grant) -> Option<u32>
    ensures { result ≡ user_of switches grant.now }
{
    match grant.uid {
        Some(0) if switches.zero_is_no_uid => None,
        uid => uid,
    }
}

// Whether a caller is the user that a grant names: the MDS has the caller's uid as a signed number, so it is none from the sign bit on.
fn is_user(caller: u32, uid: u32) -> bool
    ensures { result ≡ is_user caller uid }
{
    caller == uid && caller < 2_147_483_648
}

fn is_root(caller: &Caller) -> bool
    ensures { result ≡ is_root caller.now }
{
    caller.uid == 0 || caller.gid == 0
}

/// Whether a grant names a file system, and not this one.
pub(crate) fn is_for_other_fs(fs: &FsName, grant: &Grant) -> bool
    ensures { result ≡ is_for_other_fs fs.now grant.now }
{
    match &grant.fsname {
        Some(name) => name.as_bytes() != fs.as_bytes(),
        None => false,
    }
}

// Whether a grant lists one of the caller's gids.
fn lists_one_of(grant: &Grant, caller: &Caller) -> bool
    ensures { result ≡ list_any (contains grant.now.gids) (gids_of caller.now) }
{
    let listed = grant.gids.as_slice();
    listed.contains(&caller.gid) || lists_any(listed, caller.groups.as_slice())
}

// Whether one of these gids is listed.
fn lists_any(listed: &[u32], gids: &[u32]) -> bool
    ensures { result ≡ list_any (contains listed.now) gids.now }
{
    gids.iter().any(|gid| listed.contains(gid))
}

// Whether the caller acts by this group under a grant.
#[tactic(auto, unfolding(crate::specs::Question::is_own_group))]
fn is_own_group(caller: &Caller, grant: &Grant, gid: u32) -> bool
    ensures { result ≡ is_own_group caller.now grant.now gid }
{
    grant.gids.as_slice().contains(&gid)
        && (caller.gid == gid || is_in_groups(gid, caller.groups.as_slice()))
}

// Whether a number stands before any greater one.
fn is_in_groups(number: u32, numbers: &[u32]) -> bool
    ensures { result ≡ is_in_groups number numbers.now }
{
    for other in numbers {
        if number < *other {
            return false;
        }
        if *other == number {
            return true;
        }
    }
    false
}
