//! The search for a question that the new grants allow and the old ones deny, grant by grant.

ghost use Rattle.std.specs.Prelude.{◌≡◌, true, ◌<◌, ◌≤◌, length, IfOk, IfNone, IfSome, MatchOption, Contains};
ghost use Rattle.policy_analysis.specs.Comparing.{IsWitness, is_root};
ghost use Rattle.policy_analysis.specs.Asking.{CoversGrant, is_wanted};
ghost use Rattle.policy_analysis.specs.Free.{NoneLists, NoneNames};
ghost use Rattle.policy_analysis.specs.Searching.{CoversAs};

use crate::asking::{Accesses, Setting};
use crate::free::{free_fs, free_gid};
use crate::witness::Witness;
use capspec::{FsName, Grant};
use std::alloc::{AllocError, Global};

/// Two lists of grants, with what no grant names.
pub(crate) struct Search<'a, 'b> {
    accesses: Accesses,
    old: &'b [Grant],
    new: &'a [Grant],
    // A file system that no old grant names.
    fs: FsName,
    // A gid that no grant lists.
    nobody: u32,
    ghost few_old: { length old.now ≤ 16 },
    ghost few_new: { length new.now ≤ 16 },
    ghost no_fs: { NoneNames fs old.now },
    ghost above: { 0 < nobody },
    ghost no_old_gid: { NoneLists nobody old.now },
    ghost no_new_gid: { NoneLists nobody new.now },
}

// Not derived: so the proof of a function that drops one has a single call there.
impl Drop for Search<'_, '_> {
    fn drop(self) {
        let Search {
            accesses: _,
            old: _,
            new: _,
            fs: _,
            nobody: _,
        } = self;
    }
}

impl<'a, 'b> Search<'a, 'b> {
    /// The search in these lists for questions of these accesses.
    pub(crate) fn of(
        alloc: Global,
        accesses: Accesses,
        old: &'b [Grant],
        new: &'a [Grant],
    ) -> Result<Search<'a, 'b>, AllocError>
        requires old { length old.now ≤ 16 }
        requires new { length new.now ≤ 16 }
        ensures { IfOk result (λ search. (search.accesses ≡ accesses) × (search.old.now ≡ old.now) × (search.new.now ≡ new.now)) }
    {
        Ok(Search {
            accesses,
            old,
            new,
            fs: free_fs(old),
            nobody: free_gid(alloc, old, new)?,
        })
    }

    /// A question of root, or of a caller who is not root, that the new grants allow and the old ones deny.
    pub(crate) fn find(&self, alloc: Global, root: bool) -> Result<Option<Witness<'a>>, AllocError>
        ensures exact { IfOk result (λ found. MatchOption found (CoversAs self.now.accesses self.now.old.now self.now.new.now root) (IsWitness self.now.old.now self.now.new.now)) }
        ensures asker { IfOk result (λ found. IfSome found (λ w. is_root w.caller ≡ root)) }
        ensures wanted { IfOk result (λ found. IfSome found (λ w. is_wanted self.now.accesses w.access ≡ true)) }
    {
        for grant in self.new {
            if let Some(witness) = self.find_by(alloc, grant, root)? {
                return Ok(Some(witness));
            }
        }
        Ok(None)
    }

    // A question of root, or of a caller who is not root, that this new grant allows and the old grants deny.
    fn find_by(
        &self,
        alloc: Global,
        grant: &'a Grant,
        root: bool,
    ) -> Result<Option<Witness<'a>>, AllocError>
        requires { Contains self.now.new.now grant.now }
        ensures exact { IfOk result (λ found. MatchOption found (CoversGrant self.now.accesses self.now.old.now root grant.now) (IsWitness self.now.old.now self.now.new.now)) }
        ensures asker { IfOk result (λ found. IfSome found (λ w. is_root w.caller ≡ root)) }
        ensures wanted { IfOk result (λ found. IfSome found (λ w. is_wanted self.now.accesses w.access ≡ true)) }
    {
        let names = grant.path.names(alloc)?;
        let fs = self.fs_for(grant);
        let setting = Setting {
            accesses: self.accesses,
            old: self.old,
            new: self.new,
            fs,
            path: names.as_slice(),
            nobody: self.nobody,
        };
        match setting.ask_for(grant, root) {
            None => Ok(None),
            Some(found) => Ok(Some(found.into_witness(fs.clone()?, &grant.path))),
        }
    }

    // The file system of the questions: the grant's own, or one that no old grant names.
    fn fs_for<'c>(&'c self, grant: &'c Grant) -> &'c FsName
        ensures { MatchOption grant.now.fsname (NoneNames result.now self.now.old.now) (λ name. result.now ≡ name) }
    {
        match &grant.fsname {
            Some(name) => name,
            None => &self.fs,
        }
    }
}
