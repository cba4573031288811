//! What the texts and numbers of a call mean.
ghost use Rattle.std.specs.Prelude.{◌≡◌, ◌<◌, ◌≤◌, length, IsTrue, MatchOption, MatchResult};
ghost use Rattle.capspec.specs.Grants.{Reads};
ghost use Rattle.capspec.specs.Paths.{are_few_and_short, names_of};
ghost use Rattle.capffi.specs.Asking.{IsJudged, IsPathTrouble, IsPermitted, IsTextTrouble, IsTrouble, Means, access_of};

use crate::passed::Question;
use crate::trouble::Trouble;
use arrayvec::ArrayVec;
use capbits::{Caller, CapSet, Groups, MAX_MODE, Mode};
use capgrant::{Access, Attr, Verdict, permitted, verdict};
use capspec::{FsName, Grants, SpecFaultKind, TreePath, read_grants};
use std::alloc::{AllocError, Global};

/// What the texts and numbers of a question mean, but for the access.
#[derive(Drop)]
pub(crate) struct Asked {
    /// The grants of the client.
    pub(crate) grants: Grants,
    /// The file system of the inode.
    pub(crate) fs: FsName,
    /// Who asks.
    pub(crate) caller: Caller,
    /// The inode's path.
    pub(crate) path: TreePath,
    /// The inode's owner, group and mode.
    pub(crate) attr: Attr,
}

/// The grants that a text means.
pub(crate) fn read_text(alloc: Global, text: &[u8]) -> Result<Grants, Trouble>
    ensures { MatchResult result (Reads text.now) (IsTextTrouble text.now) }
{
    match read_grants(alloc, text) {
        Ok(grants) => Ok(grants),
        Err(fault) => match fault.kind {
            SpecFaultKind::NoMemory => Err(Trouble::Memory),
            _ => Err(Trouble::Grants(fault)),
        },
    }
}

/// The path that a text means.
pub(crate) fn read_path(alloc: Global, text: &[u8]) -> Result<TreePath, Trouble>
    ensures { MatchResult result (λ path. (path ≡ names_of text.now) × IsTrue (are_few_and_short path)) (IsPathTrouble text.now) }
{
    match TreePath::read(alloc, text) {
        Ok(Some(path)) => Ok(path),
        Ok(None) => Err(Trouble::Path),
        Err(AllocError) => Err(Trouble::Memory),
    }
}

// The groups of a caller besides its first.
fn read_groups(gids: &[u32]) -> Option<Groups>
    ensures { MatchOption result (16 < length gids.now) (λ groups. (groups ≡ gids.now) × (length gids.now ≤ 16)) }
{
    let mut groups = ArrayVec::new();
    match groups.try_extend_from_slice(gids) {
        Ok(()) => Some(Groups::from(groups)),
        Err(_) => None,
    }
}

/// The mode with these bits.
pub(crate) fn read_mode(bits: u32) -> Option<Mode>
    ensures { MatchOption result (4095 < bits) (λ mode. (mode ≡ bits) × (bits ≤ 4095)) }
{
    if bits > u32::from(MAX_MODE) {
        return None;
    }
    Mode::new(bits as u16)
}

// What a question means. The first bad value is told, in the order of grants, file system, groups, path and mode.
fn read_question(
    alloc: Global,
    grants: &[u8],
    fs: &[u8],
    path: &[u8],
    groups: &[u32],
    question: &Question,
) -> Result<Asked, Trouble>
    ensures { MatchResult result (Means grants.now fs.now path.now groups.now question.now) (IsTrouble grants.now fs.now path.now groups.now question.now) }
{
    let grants = read_text(alloc, grants)?;
    let Some(fs) = FsName::read(fs) else {
        return Err(Trouble::Fs);
    };
    let Some(groups) = read_groups(groups) else {
        return Err(Trouble::Groups);
    };
    let path = read_path(alloc, path)?;
    let Some(mode) = read_mode(question.mode) else {
        return Err(Trouble::Mode);
    };
    Ok(Asked {
        grants,
        fs,
        caller: Caller {
            uid: question.uid,
            gid: question.gid,
            groups,
        },
        path,
        attr: Attr {
            uid: question.owner,
            gid: question.group,
            mode,
        },
    })
}

/// The access that these numbers name.
#[tactic(auto, unfolding(crate::specs::Asking::access_of))]
pub(crate) fn read_access(kind: u32, number: u32) -> Option<Access>
    ensures { result ≡ access_of kind number }
{
    match kind {
        0 => Some(Access::Read),
        1 => Some(Access::Write),
        2 => Some(Access::SetVxattr),
        3 => Some(Access::Snapshot),
        4 => Some(Access::Chmod),
        5 => Some(Access::Chown(number)),
        6 => Some(Access::Chgrp(number)),
        _ => None,
    }
}

/// What the grants say to a question.
pub(crate) fn judge(
    alloc: Global,
    grants: &[u8],
    fs: &[u8],
    path: &[u8],
    groups: &[u32],
    question: &Question,
) -> Result<Verdict, Trouble>
    ensures { IsJudged grants.now fs.now path.now groups.now question.now result }
{
    let asked = read_question(alloc, grants, fs, path, groups, question)?;
    let Some(access) = read_access(question.access, question.number) else {
        return Err(Trouble::Access);
    };
    let Ok(names) = asked.path.names(alloc) else {
        return Err(Trouble::Memory);
    };
    Ok(verdict(
        &asked.grants,
        &asked.fs,
        &asked.caller,
        names.as_slice(),
        &asked.attr,
        access,
    ))
}

/// The caps that the grants permit who asks to hold of the inode, whatever the access of the question.
pub(crate) fn permit(
    alloc: Global,
    grants: &[u8],
    fs: &[u8],
    path: &[u8],
    groups: &[u32],
    question: &Question,
) -> Result<CapSet, Trouble>
    ensures { IsPermitted grants.now fs.now path.now groups.now question.now result }
{
    let asked = read_question(alloc, grants, fs, path, groups, question)?;
    let Ok(names) = asked.path.names(alloc) else {
        return Err(Trouble::Memory);
    };
    Ok(permitted(
        &asked.grants,
        &asked.fs,
        &asked.caller,
        names.as_slice(),
        &asked.attr,
    ))
}
