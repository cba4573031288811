//! What stands beside the answers of steps: a lock, and what clients hold.

use crate::asserting::made;
use crate::values::{caps_text, text_of};
use capbits::{ClientId, Ino, Part};
use capcore::Core;
use captable::Entry;
use locktable::{LockState, StableState};
use std::alloc::Global;
use std::process::Abort;

/// A stable state by its word.
pub fn state_text(rt: &impl Abort, alloc: Global, state: StableState) -> String {
    let word = match state {
        StableState::Sync => "SYNC",
        StableState::Lock => "LOCK",
        StableState::Mix => "MIX",
        StableState::Excl(client) => return made(
            rt,
            format!(in alloc; "EXCL({client})"),
            "a state",
        ),
    };
    text_of(rt, alloc, word.as_bytes())
}

/// A lock by its state, or by the two of a gather; a dash where there is none.
pub fn lock_text(rt: &impl Abort, alloc: Global, lock: Option<LockState>) -> String {
    match lock {
        None => text_of(rt, alloc, b"-"),
        Some(LockState::Stable(state)) => state_text(rt, alloc, state),
        Some(LockState::Gather { from, to }) => {
            let from = state_text(rt, alloc, from);
            let to = state_text(rt, alloc, to);
            made(rt, format!(in alloc; "{from} to {to}"), "a gather")
        }
    }
}

fn entry_text(rt: &impl Abort, alloc: Global, entry: Option<Entry>) -> String {
    let Some(entry) = entry else {
        return text_of(rt, alloc, b"-");
    };
    let caps = caps_text(rt, alloc, entry.held);
    let due = if entry.told_seq < entry.seq {
        " due"
    } else {
        ""
    };
    let number = entry.seq;
    made(rt, format!(in alloc; "{caps} {number}{due}"), "an entry")
}

// Without what the core promises of it.
fn lock(core: &Core, ino: Ino, part: Part) -> Option<LockState> {
    core.lock_state(ino, part)
}

fn entry(core: &Core, client: u32) -> Option<Entry> {
    core.entry(ClientId(client), Ino(2))
}

/// The file lock of inode 2, and what the clients 1 and 2 hold of it with the number of the last change, and `due` where
/// they are not told of it yet.
pub fn locks_text(rt: &impl Abort, alloc: Global, core: &Core) -> String {
    let lock = lock_text(rt, alloc, lock(core, Ino(2), Part::F));
    let one = entry_text(rt, alloc, entry(core, 1));
    let two = entry_text(rt, alloc, entry(core, 2));
    made(rt, format!(in alloc; "{lock}; {one}; {two}"), "locks")
}

/// The auth lock of an inode.
pub fn auth_lock_text(rt: &impl Abort, alloc: Global, core: &Core, ino: Ino) -> String {
    lock_text(rt, alloc, lock(core, ino, Part::A))
}
