//! The work on grants: reading them, and judging an access by them.
ghost use Rattle.std.specs.Prelude.{◌≡◌};
ghost use Rattle.capbench.specs.Score.{score};

use crate::fault::Fault;
use capbits::{Caller, Groups, Mode};
use capgrant::{Access, Attr, Verdict, verdict};
use capspec::{FsName, Grants, read_grants};
use std::alloc::Global;

const FS: &[u8] = b"cephfs";

/// The user who asks, its first group, and the owner of the inode.
const USER: u32 = 1000;

/// The user's other group.
const GROUP: u32 = 1001;

const MODE: u16 = 0o644;

/// Reads the text of grants once, judges an access to the path of the last of them so many times, and returns the sum of what the verdicts
/// score.
pub(crate) fn judge(alloc: Global, text: &[u8], times: u32) -> Result<u64, Fault> {
    let grants = grants_of(alloc, text)?;
    let names = last_path(alloc, &grants)?;
    Ok(judge_often(&grants, names.as_slice(), times))
}

// The path that is asked for: that of the last grant.
fn last_path(alloc: Global, grants: &Grants) -> Result<Vec<&[u8]>, Fault> {
    match grants.as_slice().last() {
        Some(grant) => Ok(grant.path.names(alloc)?),
        None => Err(Fault::Text),
    }
}

// The grants of a text. What is promised of them stays behind here.
fn grants_of(alloc: Global, text: &[u8]) -> Result<Grants, Fault> {
    Ok(read_grants(alloc, text)?)
}

fn judge_often(grants: &Grants, names: &[&[u8]], times: u32) -> u64 {
    let caller = caller();
    let (Some(fs), Some(mode)) = (FsName::read(FS), Mode::new(MODE)) else {
        unreachable!()
    };
    let attr = Attr {
        uid: USER,
        gid: USER,
        mode,
    };
    let mut sum: u64 = 0;
    for _ in 0..times {
        sum = sum.wrapping_add(judge_once(grants, &fs, &caller, names, &attr));
    }
    sum
}

// What one verdict scores. It is inlined, as the verdict is into it.
#[inline(always)]
fn judge_once(grants: &Grants, fs: &FsName, caller: &Caller, names: &[&[u8]], attr: &Attr) -> u64 {
    score(&verdict(grants, fs, caller, names, attr, Access::Write))
}

/// Reads the text of grants so many times, and returns how many grants were read in all.
pub(crate) fn read(alloc: Global, text: &[u8], times: u32) -> Result<u64, Fault> {
    let mut sum: u64 = 0;
    for _ in 0..times {
        let grants: Grants = read_grants(alloc, text)?;
        sum = sum.wrapping_add(grants.len() as u64);
    }
    Ok(sum)
}

// What a verdict adds to the sum: the number of the grant that allows, or what no such number is.
fn score(verdict: &Verdict) -> u64
    ensures { result ≡ score verdict.now }
{
    match verdict {
        Verdict::Allowed { grant } => u64::from(*grant),
        Verdict::Denied { rules } => 100 + rules.len() as u64,
    }
}

fn caller() -> Caller {
    let mut groups = Groups::new();
    if groups.try_push(GROUP).is_err() {
        unreachable!();
    }
    Caller {
        uid: USER,
        gid: USER,
        groups,
    }
}
