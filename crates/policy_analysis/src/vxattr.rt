//! The search for an attribute of an MDS that the new grants let somebody set and the old ones do not.

ghost use Rattle.std.specs.Prelude.{◌≡◌, ◌<◌, ◌≤◌, true, false, length, map, unwrap_or, IsTrue, IfNone, IfOk, IfSome, MatchOption, Contains};
ghost use Rattle.capgrant.specs.declared.access.Access.TheVariants.{Read};
ghost use Rattle.capgrant.specs.Question.{question};
ghost use Rattle.capgrant.specs.Verdict.{granted};
ghost use Rattle.policy_analysis.specs.Comparing.{is_root};
ghost use Rattle.policy_analysis.specs.Free.{NoneAreFor, NoneLists, NoneNames};
ghost use Rattle.policy_analysis.specs.Vxattrs.{CoversOwners, CoversOwnersOf, IsFor, IsOwnersWitness, asks, is_of_root};

use crate::asking::{caller, mode_of, with_group};
use crate::free::{free_fs, free_id};
use crate::witness::Witness;
use capbits::Caller;
use capgrant::{Access, Attr, Question};
use capspec::{FsName, Grant};
use std::alloc::{AllocError, Global};

/// Two lists of grants that stand in for those of an MDS which let somebody set attributes, with what no grant has. To set one is there what to read
/// is here for an inode's owner, on which no flag and no squashing decides.
pub(crate) struct VxattrSearch<'a, 'b> {
    old: &'b [Grant],
    new: &'a [Grant],
    // A file system that no old grant names.
    fs: FsName,
    // A number that is no uid and no gid of any grant, and not 0.
    nobody: u32,
    ghost no_fs: { NoneNames fs old.now },
    ghost above: { 0 < nobody },
    ghost no_uid: { NoneAreFor nobody old.now },
    ghost no_old_gid: { NoneLists nobody old.now },
    ghost no_new_gid: { NoneLists nobody new.now },
}

// Not derived: so the proof of a function that drops one has a single call there.
impl Drop for VxattrSearch<'_, '_> {
    fn drop(self) {
        let VxattrSearch {
            old: _,
            new: _,
            fs: _,
            nobody: _,
        } = self;
    }
}

impl<'a, 'b> VxattrSearch<'a, 'b> {
    /// The search in these lists.
    pub(crate) fn of(
        alloc: Global,
        old: &'b [Grant],
        new: &'a [Grant],
    ) -> Result<VxattrSearch<'a, 'b>, AllocError>
        requires old { length old.now ≤ 16 }
        requires new { length new.now ≤ 16 }
        ensures { IfOk result (λ search. (search.old.now ≡ old.now) × (search.new.now ≡ new.now)) }
    {
        Ok(VxattrSearch {
            old,
            new,
            fs: free_fs(old),
            nobody: free_id(alloc, old, new)?,
        })
    }

    /// A question that the new grants allow and the old ones deny, if there is one: of anybody, or of a caller who is not root.
    pub(crate) fn find(&self, alloc: Global, root: bool) -> Result<Option<Witness<'a>>, AllocError>
        ensures exact { IfOk result (λ found. MatchOption found (CoversOwners self.now.old.now self.now.new.now root) (IsOwnersWitness self.now.old.now self.now.new.now)) }
        ensures asker { IfOk result (λ found. IfSome found (λ w. IsTrue (is_root w.caller) → IsTrue root)) }
    {
        for grant in self.new {
            if (root || !is_of_root(grant))
                && let Some(witness) = self.find_by(alloc, grant)?
            {
                return Ok(Some(witness));
            }
        }
        Ok(None)
    }

    // A question that this new grant allows and the old ones deny.
    fn find_by(&self, alloc: Global, grant: &'a Grant) -> Result<Option<Witness<'a>>, AllocError>
        requires { Contains self.now.new.now grant.now }
        ensures exact { IfOk result (λ found. MatchOption found (CoversOwnersOf self.now.old.now grant.now) (IsOwnersWitness self.now.old.now self.now.new.now)) }
        ensures asker { IfOk result (λ found. IfSome found (λ w. is_root w.caller ≡ is_of_root grant.now)) }
    {
        let asker = caller(grant.uid.unwrap_or(self.nobody), self.nobody);
        let gids = grant.gids.as_slice();
        if gids.is_empty() {
            return self.ask(alloc, grant, asker);
        }
        for own in gids {
            if let Some(witness) = self.ask(alloc, grant, with_group(&asker, *own))? {
                return Ok(Some(witness));
            }
        }
        Ok(None)
    }

    // The question of this caller, which the grant allows, if the old ones deny it.
    fn ask(
        &self,
        alloc: Global,
        grant: &'a Grant,
        caller: Caller,
    ) -> Result<Option<Witness<'a>>, AllocError>
        ensures none { IfOk result (λ found. IfNone found (granted (asks self.now.fs self.now.nobody grant.now caller) self.now.old.now ≡ true)) }
        ensures denied { IfOk result (λ found. IfSome found (λ w. granted (asks self.now.fs self.now.nobody grant.now caller) self.now.old.now ≡ false)) }
        ensures found { IfOk result (λ found. IfSome found (λ w. IsFor w (asks self.now.fs self.now.nobody grant.now caller))) }
    {
        let names = grant.path.names(alloc)?;
        let fs = self.fs_for(grant);
        let attr = Attr {
            uid: caller.uid,
            gid: self.nobody,
            mode: mode_of(0o600),
        };
        if self.is_covered(fs, names.as_slice(), &caller, &attr) {
            return Ok(None);
        }
        Ok(Some(Witness {
            fs: fs.clone()?,
            caller,
            path: &grant.path,
            attr,
            access: Access::SetVxattr,
            grant: 1,
        }))
    }

    // Whether some old grant lets the caller read.
    fn is_covered(&self, fs: &FsName, path: &[&[u8]], caller: &Caller, attr: &Attr) -> bool
        ensures { result ≡ granted (question fs.now caller.now (map (λ name. name.now) path.now) attr.now Read) self.now.old.now }
    {
        let question = Question {
            fs,
            caller,
            path,
            attr,
            access: Access::Read,
        };
        question.first_allowing(self.old).is_some()
    }

    // The file system of the questions: the grant's own, or one that no old grant names.
    fn fs_for<'c>(&'c self, grant: &'c Grant) -> &'c FsName
        ensures { result.now ≡ unwrap_or grant.now.fsname self.now.fs }
    {
        match &grant.fsname {
            Some(name) => name,
            None => &self.fs,
        }
    }
}

// Whether the grant is for root by its uid.
fn is_of_root(grant: &Grant) -> bool
    ensures { result ≡ is_of_root grant.now }
{
    match grant.uid {
        Some(uid) => uid == 0,
        None => false,
    }
}
