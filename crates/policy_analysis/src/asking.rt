//! The questions that are asked for one grant. They are few, and chosen so that the old grants deny as much as they can: if
//! they allow these, they allow every question that the grant allows.

ghost use Rattle.std.specs.Prelude.{◌≡◌, ◌≢◌, ◌<◌, ◌≤◌, IfNone, IfSome, All, length};
ghost use Rattle.policy_analysis.specs.Asking.{another, caller_of, gid_for, uid_for, with_group};

use crate::witness::Witness;
use capbits::{Caller, Groups, MAX_GROUPS, MAX_MODE, Mode};
use capgrant::{Access, Attr, Question};
use capspec::{FsName, Grant, TreePath};
use std::marker::Model;

/// Which accesses are asked for.
#[derive(Clone, Copy)]
pub(crate) enum Accesses {
    /// Each, by the rules of this server.
    All,
    /// Of grants that stand for those of an MDS: all but attributes, which it judges otherwise, and changes of the mode and of the owner, which go with
    /// writing there.
    OfMds,
}

impl Accesses {
    ghost use Rattle.std.specs.Prelude.{◌≡◌};
    ghost use Rattle.policy_analysis.specs.Asking.{is_wanted};

    // Whether this access is asked for.
    fn include(self, access: Access) -> bool
        ensures { result ≡ is_wanted self access }
    {
        match self {
            Accesses::All => true,
            Accesses::OfMds => !matches!(
                access,
                Access::SetVxattr | Access::Chmod | Access::Chown(_)
            ),
        }
    }
}

/// What the questions have in common.
#[derive(Drop)]
pub(crate) struct Setting<'a> {
    pub(crate) accesses: Accesses,
    pub(crate) old: &'a [Grant],
    pub(crate) new: &'a [Grant],
    pub(crate) fs: &'a FsName,
    pub(crate) path: &'a [&'a [u8]],
    /// A gid that no grant lists.
    pub(crate) nobody: u32,
}

/// What a question that the new grants allow and the old ones deny has beside that.
pub(crate) struct Found {
    pub(crate) caller: Caller,
    pub(crate) attr: Attr,
    pub(crate) access: Access,
    /// The place of the first new grant that allows it.
    pub(crate) place: usize,
}

// Not derived: so the proof of a function that drops one has a single call there.
impl Drop for Found {
    fn drop(self) {
        let Found {
            caller: _,
            attr: _,
            access: _,
            place: _,
        } = self;
    }
}

impl Found {
    ghost use Rattle.std.specs.Prelude.{◌+◌};
    ghost use Rattle.capgrant.specs.Question.{question};
    ghost use Rattle.policy_analysis.specs.Comparing.{question_of};

    /// The question that was found, with the file system and the path on which it is asked.
    pub(crate) fn into_witness<'a>(self, fs: FsName, path: &'a TreePath) -> Witness<'a>
        requires { self.place < 16 }
        ensures asks { question_of result ≡ question fs self.caller path.now self.attr self.access }
        ensures caller { result.caller ≡ self.caller }
        ensures number { result.grant ≡ self.place + 1 }
    {
        let Found {
            caller,
            attr,
            access,
            place,
        } = self;
        Witness {
            fs,
            caller,
            path,
            attr,
            access,
            grant: place as u32 + 1,
        }
    }
}

impl<'a> Model for Setting<'a> {
    ghost use Rattle.std.specs.Prelude.{map};
    ghost use Rattle.policy_analysis.specs.Asking.{Setting as Asked};
    ghost use Rattle.policy_analysis.specs.Asking.{setting};

    ghost Value = { Asked };

    ghost view = { λ s. setting s.accesses s.old.now s.new.now s.fs.now (map (λ name. name.now) s.path.now) s.nobody };
}

impl Setting<'_> {
    ghost use Rattle.std.specs.Prelude.{false, is_none};
    ghost use Rattle.capgrant.specs.Question.{contains};
    ghost use Rattle.policy_analysis.specs.Comparing.{is_root};
    ghost use Rattle.policy_analysis.specs.Asking.{CoversGrant, GainsNone, GainsNoneOfAll, IsFound, IsSettingFor, NoneAsGroup, NoneAsOther, NoneAsOthers};
    ghost use Rattle.policy_analysis.specs.Asking.{NoneAsNonOwner, NoneAsOthersOf, NoneAsOwner, NoneBy, NoneFor, asked, is_gained};

    /// Asks for all that the grant allows to root, or to callers who are not root.
    pub(crate) fn ask_for(&self, grant: &Grant, root: bool) -> Option<Found>
        requires { IsSettingFor self.now grant.now }
        ensures none { IfNone result (CoversGrant self.now.accesses self.now.old root grant.now) }
        ensures found { IfSome result (IsFound self.now root) }
    {
        let uid = uid_for(grant, root, self.nobody);
        if uid == 0 && !root {
            return None;
        }
        let asker = caller(uid, gid_for(uid, root, self.nobody));
        let gids = grant.gids.as_slice();
        if gids.is_empty() {
            return self.ask_by(grant, &asker, self.nobody);
        }
        for own in gids {
            if let Some(found) = self.ask_by(grant, &with_group(&asker, *own), *own) {
                return Some(found);
            }
        }
        None
    }

    // The questions of one caller, whose one gid that the grant lists, if it lists any, is `own`.
    #[tactic(auto, unfolding(crate::specs::Asking::NoneFor))]
    fn ask_by(&self, grant: &Grant, caller: &Caller, own: u32) -> Option<Found>
        requires { length caller.now.groups < 2 }
        ensures none { IfNone result (NoneFor self.now grant.now caller.now own) }
        ensures found { IfSome result (IsFound self.now (is_root caller.now)) }
    {
        if grant.uid.is_none() {
            return self.ask_as_non_owner(caller, own);
        }
        if let Some(found) = self.ask_as_owner(caller, own) {
            return Some(found);
        }
        if let Some(found) = self.ask_as_group(caller, own) {
            return Some(found);
        }
        self.ask_as_others(caller)
    }

    // Of an inode of another owner, with no mode bit: a grant with a uid denies it.
    #[tactic(auto, unfolding(crate::specs::Asking::NoneAsNonOwner))]
    fn ask_as_non_owner(&self, caller: &Caller, own: u32) -> Option<Found>
        ensures none { IfNone result (NoneAsNonOwner self.now caller.now own) }
        ensures found { IfSome result (IsFound self.now (is_root caller.now)) }
    {
        let attr = Attr {
            uid: another(caller.uid),
            gid: self.nobody,
            mode: mode_of(0),
        };
        self.ask_all(caller, &attr, own)
    }

    // Of an inode of the caller's, whose owner alone may read and write.
    #[tactic(auto, unfolding(crate::specs::Asking::NoneAsOwner))]
    fn ask_as_owner(&self, caller: &Caller, own: u32) -> Option<Found>
        ensures none { IfNone result (NoneAsOwner self.now caller.now own) }
        ensures found { IfSome result (IsFound self.now (is_root caller.now)) }
    {
        let attr = Attr {
            uid: caller.uid,
            gid: self.nobody,
            mode: mode_of(0o600),
        };
        self.ask_all(caller, &attr, own)
    }

    // Of an inode of another owner, whose group alone may read and write: it is one of the caller's.
    #[tactic(auto, unfolding(crate::specs::Asking::NoneAsGroup))]
    fn ask_as_group(&self, caller: &Caller, own: u32) -> Option<Found>
        ensures none { IfNone result (NoneAsGroup self.now caller.now own) }
        ensures found { IfSome result (IsFound self.now (is_root caller.now)) }
    {
        let attr = Attr {
            uid: another(caller.uid),
            gid: own,
            mode: mode_of(0o060),
        };
        self.ask_each(caller, &attr, &BY_MODE)
    }

    // Of an inode that only those may read and write who neither own it nor are of its group, for each group that an old
    // grant lists and one that none lists.
    fn ask_as_others(&self, caller: &Caller) -> Option<Found>
        requires { length caller.now.groups < 2 }
        ensures none { IfNone result (NoneAsOthers self.now caller.now) }
        ensures found { IfSome result (IsFound self.now (is_root caller.now)) }
    {
        for grant in self.old {
            if let Some(found) = self.ask_as_others_of(caller, grant.gids.as_slice()) {
                return Some(found);
            }
        }
        self.ask_as_other(caller, self.nobody)
    }

    // Of an inode that only those may read and write who neither own it nor are of its group, for each of these groups.
    fn ask_as_others_of(&self, caller: &Caller, groups: &[u32]) -> Option<Found>
        requires { length caller.now.groups < 2 }
        ensures none { IfNone result (NoneAsOthersOf self.now caller.now groups.now) }
        ensures found { IfSome result (IsFound self.now (is_root caller.now)) }
    {
        for group in groups {
            if let Some(found) = self.ask_as_other(caller, *group) {
                return Some(found);
            }
        }
        None
    }

    // Of an inode that only those may read and write who neither own it nor are of its group, for one group to which the caller belongs: a
    // grant that lists the group finds the caller in the group's class.
    #[tactic(auto, unfolding(crate::specs::Asking::NoneAsOther))]
    fn ask_as_other(&self, caller: &Caller, group: u32) -> Option<Found>
        requires { length caller.now.groups < 2 }
        ensures none { IfNone result (NoneAsOther self.now caller.now group) }
        ensures found { IfSome result (IsFound self.now (is_root caller.now)) }
    {
        let attr = Attr {
            uid: another(caller.uid),
            gid: group,
            mode: mode_of(0o006),
        };
        self.ask_each(&with_group(caller, group), &attr, &BY_MODE)
    }

    // Every access, of the changes of owner and group those to the caller and to the group `own`.
    fn ask_all(&self, caller: &Caller, attr: &Attr, own: u32) -> Option<Found>
        ensures none { IfNone result (GainsNoneOfAll self.now caller.now attr.now own) }
        ensures found { IfSome result (IsFound self.now (is_root caller.now)) }
    {
        if let Some(found) = self.ask_each(caller, attr, &BY_MODE) {
            return Some(found);
        }
        self.ask_each(
            caller,
            attr,
            &[Access::Chmod, Access::Chown(caller.uid), Access::Chgrp(own)],
        )
    }

    // Each of these accesses.
    fn ask_each(&self, caller: &Caller, attr: &Attr, accesses: &[Access]) -> Option<Found>
        ensures none { IfNone result (GainsNone self.now caller.now attr.now accesses.now) }
        ensures found { IfSome result (IsFound self.now (is_root caller.now)) }
    {
        for access in accesses {
            if let Some(found) = self.ask(caller, attr, *access) {
                return Some(found);
            }
        }
        None
    }

    // One question.
    fn ask(&self, caller: &Caller, attr: &Attr, access: Access) -> Option<Found>
        ensures none { IfNone result (is_gained self.now (asked self.now caller.now attr.now access) ≡ false) }
        ensures found { IfSome result (IsFound self.now (is_root caller.now)) }
    {
        if !self.accesses.include(access) {
            return None;
        }
        let question = Question {
            fs: self.fs,
            caller,
            path: self.path,
            attr,
            access,
        };
        let Some(place) = question.first_allowing(self.new) else {
            return None;
        };
        match question.first_allowing(self.old) {
            Some(_) => None,
            None => Some(Found {
                caller: caller.copy(),
                attr: *attr,
                access,
                place,
            }),
        }
    }
}

// The accesses on which the mode decides.
const BY_MODE: [Access; 4] = [
    Access::Read,
    Access::Write,
    Access::SetVxattr,
    Access::Snapshot,
];

// The user of the questions that are asked for a grant: its own, or root, or some user who is not root.
fn uid_for(grant: &Grant, root: bool, nobody: u32) -> u32
    ensures { result ≡ uid_for grant.now root nobody }
{
    match grant.uid {
        Some(uid) => uid,
        None => { if root { 0 } else { nobody } }
    }
}

// The first group of that user: one that makes it root if it is to be root and is not yet, else one that no grant lists.
fn gid_for(uid: u32, root: bool, nobody: u32) -> u32
    ensures { result ≡ gid_for uid root nobody }
{
    if root && uid != 0 { 0 } else { nobody }
}

// A user other than this one.
fn another(uid: u32) -> u32
    ensures { result ≡ another uid }
{
    if uid == 0 { 1 } else { 0 }
}

/// The mode of these bits.
pub(crate) fn mode_of(bits: u16) -> Mode
    requires { bits ≤ MAX_MODE }
    ensures { result ≡ bits }
{
    match Mode::new(bits) {
        Some(mode) => mode,
        None => unreachable!(),
    }
}

/// A caller with no further group.
pub(crate) fn caller(uid: u32, gid: u32) -> Caller
    ensures { result ≡ caller_of uid gid }
{
    Caller {
        uid,
        gid,
        groups: Groups::new(),
    }
}

/// The caller, in this group too.
pub(crate) fn with_group(caller: &Caller, gid: u32) -> Caller
    requires { length caller.now.groups < MAX_GROUPS }
    ensures { result ≡ with_group caller.now gid }
{
    let mut with = caller.copy();
    if with.groups.try_push(gid).is_err() {
        unreachable!()
    }
    with
}
