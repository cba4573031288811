//! What the MDS of a release allows by a grant, and its clients refuse as another comes last.

ghost use Rattle.std.specs.Prelude.{◌≡◌, ◌↔◌, map, IfOk, IfSome, IsSome, MatchOption};
ghost use Rattle.capspec.specs.Names.{IsFsName};
ghost use Rattle.policy_analysis.specs.Refusals.{AreRefusals, IsFoundOf, IsRefusal, NoneRefuses, caller_of_two, changing, fs_of_two};
ghost use Rattle.policy_analysis.specs.Refusals.{names_in, refused_by, refused_in, refused_of_one, refused_today, small};
ghost use Rattle.policy_analysis.specs.Squashing.{longer};

use crate::asking::caller;
use crate::releases::Releases;
use crate::squash::{longer, owned_by, with_first_of};
use crate::witness::Witness;
use capbits::Caller;
use capgrant::{Access, Attr};
use capspec::{FsName, TreePath};
use release_grants::{Grant, Switches};
use release_rules::{Asked, Question, Release, client_refuses, mds_verdict, user_of};
use std::alloc::{AllocError, Global};
use std::slice::from_ref;

/// The paths of grants, in their order, as `refusals` needs them.
pub fn paths_of(alloc: Global, grants: &[Grant]) -> Result<Vec<TreePath>, AllocError>
    ensures { IfOk result (λ paths. paths.items ≡ map names_in grants.now) }
{
    let mut paths = Vec::new(alloc);
    for grant in grants {
        paths.push(path_of(alloc, grant)?)?;
    }
    Ok(paths)
}

fn path_of(alloc: Global, grant: &Grant) -> Result<TreePath, AllocError>
    ensures { IfOk result (λ path. path ≡ names_in grant.now) }
{
    match &grant.path {
        Some(text) => TreePath::from_text(alloc, text.as_bytes()),
        None => TreePath::from_text(alloc, b""),
    }
}

/// What the MDS of some releases allows by a grant, and their clients refuse.
pub struct Refusal<'a> {
    /// The releases.
    pub releases: Releases,
    /// Who wants to change the mode of which inode; the grant by which clients refuse it.
    pub witness: Witness<'a>,
}

// Not derived: so the proof of a function that drops one has a single call there.
impl Drop for Refusal<'_> {
    fn drop(self) {
        let Refusal {
            releases: _,
            witness: _,
        } = self;
    }
}

/// For each grant, in their order, a change of the mode that the MDS of some of these releases allows by it, and that a client of the release
/// refuses: of the grants for the caller and the inode the last decides, which is that of the witness. One question of each two grants is asked,
/// of a client whose address is not told.
pub fn refusals<'a>(
    alloc: Global,
    asked: Releases,
    grants: &[Grant],
    paths: &'a [TreePath],
) -> Result<Vec<Option<Refusal<'a>>>, AllocError>
    requires { paths.now ≡ map names_in grants.now }
    ensures { IfOk result (λ found. AreRefusals asked grants.now found.items) }
{
    let mut found = Vec::new(alloc);
    for (place, grant) in grants.iter().enumerate() {
        found.push(refusal_of(alloc, asked, grants, paths, grant, &paths[place])?)?;
    }
    Ok(found)
}

// What is found of one of the grants, which has this path.
fn refusal_of<'a>(
    alloc: Global,
    asked: Releases,
    grants: &[Grant],
    paths: &'a [TreePath],
    grant: &Grant,
    path: &'a TreePath,
) -> Result<Option<Refusal<'a>>, AllocError>
    requires paths { paths.now ≡ map names_in grants.now }
    requires path { path.now ≡ names_in grant.now }
    ensures { IfOk result (IsFoundOf asked grants.now grant.now) }
{
    for (place, other) in grants.iter().enumerate() {
        let of_both = longer(alloc, path, &paths[place])?;
        if let Some(refusal) = refusal_of_two(alloc, asked, grants, grant, other, of_both)? {
            return Ok(Some(refusal));
        }
    }
    Ok(None)
}

// What the question of two grants, of whose paths this is the longer, finds of the first.
fn refusal_of_two<'a>(
    alloc: Global,
    asked: Releases,
    grants: &[Grant],
    grant: &Grant,
    other: &Grant,
    path: &'a TreePath,
) -> Result<Option<Refusal<'a>>, AllocError>
    requires { path.now ≡ longer (names_in grant.now) (names_in other.now) }
    ensures { IfOk result (λ found. MatchOption found (NoneRefuses asked grants.now grant.now other.now) (IsRefusal asked grants.now grant.now)) }
{
    let Some(fs) = fs_of_two(grant, other) else {
        return Ok(None);
    };
    let caller = caller_of_two(asked.switches(), grant, other);
    let attr = owned_by(caller.uid);
    let refused = refused_by(
        alloc,
        asked,
        &changing(&fs, &caller, path, &attr),
        grants,
        grant,
    )?;
    let Some((releases, by)) = refused else {
        return Ok(None);
    };
    let witness = Witness {
        fs,
        caller,
        path,
        attr,
        access: Access::Chmod,
        grant: by,
    };
    Ok(Some(Refusal { releases, witness }))
}

// The question of a caller who wants to change the mode of such an inode.
fn changing<'q>(
    fs: &'q FsName,
    caller: &'q Caller,
    path: &'q TreePath,
    attr: &'q Attr,
) -> Question<'q>
    ensures { result ≡ changing fs.now caller.now path.now attr.now }
{
    Question {
        fs,
        caller,
        path,
        attr,
        asked: Asked::of_access(Access::Chmod),
        address: None,
    }
}

// Of these releases those whose clients refuse what their MDS allows by a grant, and the number of the grant by which they do.
fn refused_by(
    alloc: Global,
    asked: Releases,
    question: &Question<'_>,
    grants: &[Grant],
    grant: &Grant,
) -> Result<Option<(Releases, u32)>, AllocError>
    ensures { IfOk result (λ found. found ≡ refused_by asked grants.now grant.now question.now) }
{
    match asked {
        Releases::One(release) => {
            let by = refused_in(alloc, release, question, grants, grant)?;
            Ok(refused_of_one(release, by))
        }
        Releases::Today => {
            let reef = refused_in(alloc, Release::Reef, question, grants, grant)?;
            let tentacle = refused_in(alloc, Release::Tentacle, question, grants, grant)?;
            Ok(refused_today(reef, tentacle))
        }
    }
}

fn refused_of_one(release: Release, by: Option<u32>) -> Option<(Releases, u32)>
    ensures { result ≡ refused_of_one release by }
{
    match by {
        Some(by) => Some((Releases::One(release), by)),
        None => None,
    }
}

// Of Ceph 18 and 20, by what the clients of each do. Where they refuse by two grants, that of Ceph 18 is told.
fn refused_today(reef: Option<u32>, tentacle: Option<u32>) -> Option<(Releases, u32)>
    ensures { result ≡ refused_today reef tentacle }
{
    match (reef, tentacle) {
        (None, other) => refused_of_one(Release::Tentacle, other),
        (Some(by), Some(other)) if by == other => Some((Releases::Today, by)),
        (Some(by), _) => Some((Releases::One(Release::Reef), by)),
    }
}

// The number of the grant by which a client of the release refuses what its MDS allows by this grant.
fn refused_in(
    alloc: Global,
    release: Release,
    question: &Question<'_>,
    grants: &[Grant],
    grant: &Grant,
) -> Result<Option<u32>, AllocError>
    ensures { IfOk result (λ by. by ≡ refused_in grants.now grant.now question.now release) }
{
    let switches = release.switches();
    let verdict = mds_verdict(alloc, switches, question, from_ref(grant))?;
    if verdict.is_allowed() {
        Ok(small(client_refuses(switches, question, grants)))
    } else {
        Ok(None)
    }
}

// The number of a grant, if it has 32 bits.
fn small(number: Option<usize>) -> Option<u32>
    ensures { result ≡ small number }
{
    match number {
        Some(number) if number < 4_294_967_296 => Some(number as u32),
        _ => None,
    }
}

// The file system that one of the grants names, if its name is one.
fn fs_of_two(one: &Grant, two: &Grant) -> Option<FsName>
    ensures valid { IsSome result ↔ IsFsName (fs_of_two one.now two.now) }
    ensures value { IfSome result (λ name. name ≡ fs_of_two one.now two.now) }
{
    match (&one.fsname, &two.fsname) {
        (Some(name), _) | (None, Some(name)) => FsName::read(name.as_bytes()),
        (None, None) => FsName::read(b"x"),
    }
}

// A caller for whom both grants are, if anybody is.
fn caller_of_two(switches: Switches, one: &Grant, two: &Grant) -> Caller
    ensures { result ≡ caller_of_two switches one.now two.now }
{
    let uid = user_of(switches, one)
        .or(user_of(switches, two))
        .unwrap_or(1);
    let gid = if two.root_squash && two.flags.has_w() {
        0
    } else {
        1
    };
    let first = with_first_of(&caller(uid, gid), one.gids.as_slice());
    with_first_of(&first, two.gids.as_slice())
}
