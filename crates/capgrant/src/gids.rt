//! Whether a caller is in one of the groups that a grant lists.
ghost use Rattle.std.specs.Prelude.{◌≡◌, ◌||◌, ℕ, Bool};
ghost use Rattle.std.specs.List.{list_any};
ghost use Rattle.capbits.specs.Caller.{gids_of};
ghost use Rattle.capgrant.specs.Question.{contains};

use capbits::{Caller, MAX_GROUPS};
use capspec::Grant;
use std::simd::prelude::*;

/// Whether the grant lists one of the caller's gids.
#[inline(never)]
pub(crate) fn has_listed_gid(caller: &Caller, grant: &Grant) -> bool
    ensures { result ≡ list_any (contains grant.now.gids) (gids_of caller.now) }
{
    let listed = grant.gids.as_slice();
    listed.contains(&caller.gid) || lists_one_of(listed, further_gids(caller))
}

// The caller's groups side by side. Where there are fewer, its first gid takes the places that are left.
fn further_gids(caller: &Caller) -> u32x16
    ensures { (p : ℕ → Bool) → (p caller.now.gid || list_any p result) ≡ (p caller.now.gid || list_any p caller.now.groups) }
{
    let count = caller.groups.len();
    let mut gids = [caller.gid; MAX_GROUPS];
    gids[..count].copy_from_slice(caller.groups.as_slice());
    u32x16::from_array(gids)
}

// Whether one of the gids is listed. Each that is listed is compared with all of them at once.
fn lists_one_of(listed: &[u32], gids: u32x16) -> bool
    ensures { result ≡ list_any (contains gids) listed.now }
{
    for gid in listed {
        if has_gid(gids, *gid) {
            return true;
        }
    }
    false
}

// Whether this is one of the gids.
#[inline(always)]
fn has_gid(gids: u32x16, gid: u32) -> bool
    ensures { result ≡ contains gids gid }
{
    gids.simd_eq(u32x16::splat(gid)).to_bitmask() != 0
}
