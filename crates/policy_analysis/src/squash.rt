//! Grants that squash root, beside others that don't.

ghost use Rattle.std.specs.Prelude.{◌≡◌, ◌≤◌, ◌<◌, ◌+◌, false, Some, position, length, IfOk, IfNone, IfSome, MatchOption, Contains};
ghost use Rattle.capgrant.specs.Verdict.{allows, granted};
ghost use Rattle.policy_analysis.specs.Linting.{IsSquashed, IsUndoing, KeepsSquash, unsquashed};
ghost use Rattle.policy_analysis.specs.Squashing.{KeepsAgainst, fs_of, longer, owned_by, root_of, with_first_of};

use crate::asking::{caller, mode_of, with_group};
use crate::dots::is_one_dots;
use crate::witness::Witness;
use capbits::Caller;
use capgrant::{Access, Attr, Question};
use capspec::{FsName, Grant, TreePath};
use std::alloc::{AllocError, Global};

/// A question of root, to write, that the grant denies for root_squash alone and another of the grants allows. None where
/// whatever the grant denies for root_squash alone, all of them deny.
pub(crate) fn undoing<'a>(
    alloc: Global,
    grants: &'a [Grant],
    grant: &'a Grant,
) -> Result<Option<Witness<'a>>, AllocError>
    requires { length grants.now ≤ 16 }
    ensures { IfOk result (λ found. MatchOption found (KeepsSquash grants.now grant.now) (IsUndoing grants.now grant.now)) }
{
    for other in grants {
        if let Some(witness) = undoing_by(alloc, grants, grant, other)? {
            return Ok(Some(witness));
        }
    }
    Ok(None)
}

// A question of root, to write, that the grant denies for root_squash alone and this other grant allows. If the other grant allows any
// such question, it allows root to write to what root owns, at the longer of the two paths.
fn undoing_by<'a>(
    alloc: Global,
    grants: &'a [Grant],
    grant: &'a Grant,
    other: &'a Grant,
) -> Result<Option<Witness<'a>>, AllocError>
    requires few { length grants.now ≤ 16 }
    requires among { Contains grants.now other.now }
    ensures { IfOk result (λ found. MatchOption found (KeepsAgainst grant.now other.now) (IsUndoing grants.now grant.now)) }
{
    let (any, would) = (any_fs(), without_squash(grant)?);
    let path = longer(alloc, &grant.path, &other.path)?;
    let names = path.names(alloc)?;
    let fs = fs_of(grant, other, &any);
    let caller = root_of(grant, other);
    let attr = owned_by(caller.uid);
    let question = Question {
        fs,
        caller: &caller,
        path: names.as_slice(),
        attr: &attr,
        access: Access::Write,
    };
    let Some(place) = place_of(&question, grants, grant, &would) else {
        return Ok(None);
    };
    Ok(Some(Witness {
        fs: fs.clone()?,
        caller,
        path,
        attr,
        access: Access::Write,
        grant: place as u32 + 1,
    }))
}

// The place of the first of the grants that allows the question, where this one denies it for root_squash alone.
fn place_of(
    question: &Question<'_>,
    grants: &[Grant],
    grant: &Grant,
    would: &Grant,
) -> Option<usize>
    requires { would.now ≡ unsquashed grant.now }
    ensures none { IfNone result (IsSquashed grant.now question.now → granted question.now grants.now ≡ false) }
    ensures squashed { IfSome result (λ place. IsSquashed grant.now question.now) }
    ensures first { IfSome result (λ place. position (allows question.now) grants.now ≡ Some place) }
{
    if is_one_dots(question.path) || question.allows(grant) || !question.allows(would) {
        return None;
    }
    question.first_allowing(grants)
}

// A copy of the grant, but without root_squash.
fn without_squash(grant: &Grant) -> Result<Grant, AllocError>
    ensures { IfOk result (λ would. would ≡ unsquashed grant.now) }
{
    let mut would = grant.copy()?;
    would.root_squash = false;
    Ok(would)
}

/// The longer of two paths, where one is the beginning of the other.
pub(crate) fn longer<'a>(
    alloc: Global,
    one: &'a TreePath,
    other: &'a TreePath,
) -> Result<&'a TreePath, AllocError>
    ensures { IfOk result (λ path. path.now ≡ longer one.now other.now) }
{
    let names = other.names(alloc)?;
    if one.leads_to(names.as_slice()) {
        Ok(other)
    } else {
        Ok(one)
    }
}

// The file system that one of the grants names, or else any.
fn fs_of<'a>(grant: &'a Grant, other: &'a Grant, any: &'a FsName) -> &'a FsName
    ensures { result.now ≡ fs_of grant.now other.now any.now }
{
    match (&grant.fsname, &other.fsname) {
        (Some(name), _) | (None, Some(name)) => name,
        (None, None) => any,
    }
}

fn any_fs() -> FsName {
    match FsName::read(b"x") {
        Some(name) => name,
        None => unreachable!(),
    }
}

// Root, in a group that each of the grants lists: the user that one of them names, with 0 for its first group.
fn root_of(grant: &Grant, other: &Grant) -> Caller
    ensures { result ≡ root_of grant.now other.now }
{
    let uid = grant.uid.or(other.uid).unwrap_or(0);
    let root = with_first_of(&caller(uid, 0), grant.gids.as_slice());
    with_first_of(&root, other.gids.as_slice())
}

/// The caller, in the first of these groups.
pub(crate) fn with_first_of(caller: &Caller, gids: &[u32]) -> Caller
    requires { length caller.now.groups < 2 }
    ensures same { result ≡ with_first_of caller.now gids.now }
    ensures few { length result.groups ≤ length caller.now.groups + 1 }
{
    match gids.first() {
        Some(gid) => with_group(caller, *gid),
        None => caller.copy(),
    }
}

/// An inode of this user's, who may read and write it.
pub(crate) fn owned_by(uid: u32) -> Attr
    ensures { result ≡ owned_by uid }
{
    Attr {
        uid,
        gid: 0,
        mode: mode_of(0o600),
    }
}
