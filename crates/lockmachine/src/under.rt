//! What the locks of an inode let the client of an entry hold, and revoke of what it holds.
ghost use Rattle.std.specs.Prelude.{◌≡◌};
ghost use Rattle.lockmachine.specs.Under as words;

use crate::states::InodeLocks;
use capbits::{Cap, CapSet, Part};
use captable::EntryRow;
use locktable::{LockState, allowed};

/// What the client is to know that it holds, under these locks of the inode and where it is permitted these caps.
pub fn pending_under(row: &EntryRow, permitted: CapSet, locks: &Option<InodeLocks>) -> CapSet
    ensures { result ≡ words.pending_under permitted locks.now row.now }
{
    let lost = row.entry.held.minus(permitted);
    let revoked = against_under(row, locks).union(lost);
    row.entry.held.minus(revoked)
}

// What the locks revoke of the entry.
fn against_under(row: &EntryRow, locks: &Option<InodeLocks>) -> CapSet
    ensures { result ≡ words.against_under locks.now row.now }
{
    let auth = against_part(Part::A, row, locks);
    let link = against_part(Part::L, row, locks);
    let xattr = against_part(Part::X, row, locks);
    let file = against_part(Part::F, row, locks);
    auth.union(link.union(xattr.union(file)))
}

// What the lock of one part revokes of the entry: where it gathers, what is held outside the row of its target.
fn against_part(part: Part, row: &EntryRow, locks: &Option<InodeLocks>) -> CapSet
    ensures { result ≡ words.against_lock part row.now (words.lock_under locks.now part) }
{
    let (client, held) = (row.holder.client, row.entry.held);
    match lock_under(locks, part) {
        Some(LockState::Gather { to, .. }) => held
            .part(part)
            .minus(locktable::row(part, to, client)),
        Some(LockState::Stable(_)) | None => CapSet::empty(),
    }
}

/// What these locks of the inode let the client hold, and the pin always.
pub fn allowed_under(row: &EntryRow, locks: &Option<InodeLocks>) -> CapSet
    ensures { result ≡ words.allowed_under locks.now row.now }
{
    let auth = allowed_part(Part::A, row, locks);
    let link = allowed_part(Part::L, row, locks);
    let xattr = allowed_part(Part::X, row, locks);
    let file = allowed_part(Part::F, row, locks);
    CapSet::of(&[Cap::P]).union(auth.union(link.union(xattr.union(file))))
}

// What they let the client hold of a part.
fn allowed_part(part: Part, row: &EntryRow, locks: &Option<InodeLocks>) -> CapSet
    ensures { result ≡ words.allowed_by part row.now (words.lock_under locks.now part) }
{
    match lock_under(locks, part) {
        Some(lock) => allowed(part, lock, row.holder.client),
        None => CapSet::empty(),
    }
}

// The lock of a part.
fn lock_under(locks: &Option<InodeLocks>, part: Part) -> Option<LockState>
    ensures { result ≡ words.lock_under locks.now part }
{
    match *locks {
        Some(four) => Some(four.of_part(part)),
        None => None,
    }
}
