//! Those who are asked for a grant. They are few, and chosen so that a grant which allows any caller allows one of them.

ghost use Rattle.std.specs.Prelude.{◌≡◌, ◌≤◌, length};
ghost use Rattle.policy_analysis.specs.Callers.{asker, beside, user_of};
ghost use Rattle.policy_analysis.specs.Standing.{attr_for, own_attr};

use arrayvec::ArrayVec;
use capbits::{Caller, Groups, Mode};
use capgrant::Attr;
use capspec::Grant;

/// The user of a grant in these further groups. The first group is neither root's, whom the grant may squash, nor the inode's, so
/// that the further groups alone decide the class.
pub(crate) fn asker(attr: &Attr, grant: &Grant, groups: &[u32]) -> Caller
    requires { length groups.now ≤ 16 }
    ensures { result ≡ asker attr.now grant.now groups.now }
{
    let Ok(gids) = ArrayVec::try_from(groups) else {
        unreachable!()
    };
    Caller {
        uid: user_of(grant),
        gid: beside(attr.gid),
        groups: Groups::from(gids),
    }
}

// The user whom a grant names. Where it names none, which means any but root, user 1.
fn user_of(grant: &Grant) -> u32
    ensures { result ≡ user_of grant.now }
{
    grant.uid.unwrap_or(1)
}

/// A gid that is neither root's nor this one.
pub(crate) fn beside(gid: u32) -> u32
    ensures { result ≡ beside gid }
{
    if gid == 1 { 2 } else { 1 }
}

/// The groups that a grant lists.
pub(crate) fn listed(grant: &Grant) -> &[u32]
    ensures value { result.now ≡ grant.now.gids }
    ensures few { length result.now ≤ 16 }
{
    let gids = grant.gids.as_slice();
    &gids[..grant.gids.len()]
}

/// The owner, the group and the mode where a grant is asked: these, or where nothing is known those of an inode of its own user
/// with all mode bits.
pub(crate) fn attr_for(attr: &Option<Attr>, grant: &Grant) -> Attr
    ensures { result ≡ attr_for attr.now grant.now }
{
    match attr {
        Some(attr) => *attr,
        None => own_attr(grant),
    }
}

/// The owner, the group and the mode of an inode of the grant's own user, with all mode bits.
pub(crate) fn own_attr(grant: &Grant) -> Attr
    ensures { result ≡ own_attr grant.now }
{
    let Some(mode) = Mode::new(0o777) else {
        unreachable!()
    };
    Attr {
        uid: user_of(grant),
        gid: 0,
        mode,
    }
}
