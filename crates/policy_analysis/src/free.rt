//! Names and numbers that no grant has.

ghost use Rattle.std.specs.Prelude.{◌≡◌, ◌≢◌, ℕ, ◌+◌, ◌*◌, ◌<◌, ◌≤◌, ◌++◌, Some, false, length, slice_get, IfOk, OnOk, IfSome, All, Contains};
ghost use Rattle.std.specs.List.{flat_map};
ghost use Rattle.capgrant.specs.Question.{contains};
ghost use Rattle.policy_analysis.specs.Free.{IsLetter, NoneAreFor, NoneLists, NoneNames, ids_of};

use arrayvec::ArrayVec;
use capspec::{FsName, Grant};
use std::alloc::{AllocError, Global};

/// The name of a file system that none of the grants names: its byte at a place is not the one that the name in the grant at
/// that place has there.
pub(crate) fn free_fs(grants: &[Grant]) -> FsName
    requires { length grants.now ≤ 16 }
    ensures { NoneNames result grants.now }
{
    let mut bytes: ArrayVec<u8, 64> = ArrayVec::new();
    for (place, grant) in grants.iter().enumerate() {
        bytes.push(other_byte(&grant.fsname, place));
    }
    bytes.push(b'x');
    let Some(name) = FsName::read(bytes.as_slice()) else {
        unreachable!()
    };
    name
}

// A byte that the name does not have at this place.
fn other_byte(name: &Option<FsName>, place: usize) -> u8
    ensures letter { IsLetter result }
    ensures other { IfSome name.now (λ name. slice_get name place ≢ Some result) }
{
    match name {
        Some(name) => match name.as_bytes().get(place) {
            Some(b'x') => b'y',
            _ => b'x',
        },
        None => b'x',
    }
}

/// A gid that no grant of the two lists lists, and that is not 0.
pub(crate) fn free_gid(alloc: Global, one: &[Grant], other: &[Grant]) -> Result<u32, AllocError>
    requires one { length one.now ≤ 16 }
    requires other { length other.now ≤ 16 }
    ensures above { IfOk result (λ gid. 0 < gid) }
    ensures one { IfOk result (λ gid. NoneLists gid one.now) }
    ensures other { IfOk result (λ gid. NoneLists gid other.now) }
{
    let mut gids = Vec::new(alloc);
    push_gids(&mut gids, one)?;
    push_gids(&mut gids, other)?;
    Ok(free_number(gids.as_slice()))
}

/// A number that is no gid and no uid of any grant of the two lists, and not 0.
pub(crate) fn free_id(alloc: Global, one: &[Grant], other: &[Grant]) -> Result<u32, AllocError>
    requires one { length one.now ≤ 16 }
    requires other { length other.now ≤ 16 }
    ensures above { IfOk result (λ id. 0 < id) }
    ensures one { IfOk result (λ id. NoneLists id one.now × NoneAreFor id one.now) }
    ensures other { IfOk result (λ id. NoneLists id other.now × NoneAreFor id other.now) }
{
    let mut ids = Vec::new(alloc);
    push_ids(&mut ids, one)?;
    push_ids(&mut ids, other)?;
    Ok(free_number(ids.as_slice()))
}

// Appends the gids and the uids that the grants have.
fn push_ids(ids: &mut Vec<u32>, grants: &[Grant]) -> Result<(), AllocError>
    ensures items { OnOk result (ids.new.items ≡ ids.old.items ++ flat_map ids_of grants.now) }
    ensures few { OnOk result (length ids.new.items ≤ length ids.old.items + 17 * length grants.now) }
{
    for grant in grants {
        ids.reserve(grant.gids.len())?;
        ids.extend_from_slice(grant.gids.as_slice())?;
        if let Some(uid) = grant.uid {
            ids.push(uid)?;
        }
    }
    Ok(())
}

// Appends the gids that the grants list.
fn push_gids(gids: &mut Vec<u32>, grants: &[Grant]) -> Result<(), AllocError>
    ensures items { OnOk result (gids.new.items ≡ gids.old.items ++ flat_map (λ g. g.gids) grants.now) }
    ensures few { OnOk result (length gids.new.items ≤ length gids.old.items + 16 * length grants.now) }
{
    for grant in grants {
        gids.reserve(grant.gids.len())?;
        gids.extend_from_slice(grant.gids.as_slice())?;
    }
    Ok(())
}

// The first number from 1 on that is none of these.
fn free_number(numbers: &[u32]) -> u32
    requires { length numbers.now < 1000 }
    ensures above { 0 < result }
    ensures free { contains numbers.now result ≡ false }
{
    let count = numbers.len() as u32;
    for number in 1..count + 1 {
        if !numbers.contains(&number) {
            return number;
        }
    }
    count + 1
}
