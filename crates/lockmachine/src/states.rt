//! The locks of each inode.
ghost use Rattle.std.specs.Prelude.{◌≡◌, OnOk, OnErr};
ghost use Rattle.std.specs.Option.{option_copied, option_map};
ghost use Rattle.std.specs.FinMap as map;
ghost use Rattle.capbits.specs.Maps.{change_at};
ghost use Rattle.locktable.specs.GatherCounts as counted;
ghost use Rattle.lockmachine.specs.Inodes as words;

use capbits::{Ino, Numbered, Part};
use locktable::{Counts, LockState, StableState};
use std::alloc::{AllocError, Global};
use std::collections::btree_map::Keys;
use std::marker::Model;

/// The four locks of an inode, one for each part.
#[derive(Clone, Copy, Debug, PartialEq, Eq)]
pub struct InodeLocks {
    /// The lock of the owner, the group and the mode.
    pub auth: LockState,
    /// The lock of the link count.
    pub link: LockState,
    /// The lock of the extended attributes.
    pub xattr: LockState,
    /// The lock of the data, with size and times.
    pub file: LockState,
}

impl InodeLocks {
    // Those of a new inode.
    pub(crate) fn new() -> InodeLocks
        ensures { result ≡ words.in_sync }
    {
        let sync = LockState::Stable(StableState::Sync);
        InodeLocks {
            auth: sync,
            link: sync,
            xattr: sync,
            file: sync,
        }
    }

    /// The lock of a part.
    pub fn of_part(&self, part: Part) -> LockState
        ensures { result ≡ words.lock_in part self.now }
    {
        match part {
            Part::A => self.auth,
            Part::L => self.link,
            Part::X => self.xattr,
            Part::F => self.file,
        }
    }

    // Whether one of them is in a gather.
    pub(crate) fn is_gathering(&self) -> bool
        ensures { result ≡ words.is_gathering self.now }
    {
        is_gather(self.auth)
            || is_gather(self.link)
            || is_gather(self.xattr)
            || is_gather(self.file)
    }

    // The lock of a part is in another state.
    pub(crate) fn set(&mut self, part: Part, state: LockState)
        ensures { self.new ≡ words.with_lock_in part state self.old }
    {
        match part {
            Part::A => self.auth = state,
            Part::L => self.link = state,
            Part::X => self.xattr = state,
            Part::F => self.file = state,
        }
    }
}

// Whether a lock is in a gather.
fn is_gather(lock: LockState) -> bool
    ensures { result ≡ words.is_gather lock }
{
    match lock {
        LockState::Gather { .. } => true,
        LockState::Stable(_) => false,
    }
}

// The locks of an inode, and beside them the counts.
#[derive(Clone, Copy, Debug)]
pub(crate) struct LocksAt {
    pub(crate) locks: InodeLocks,
    pub(crate) counts: Counts,
}

// The locks of each inode that has any.
#[derive(Debug)]
pub(crate) struct States {
    // By the inode's number.
    rows: Numbered<LocksAt>,
}

// Not derived: so the proof of a function that drops one has a single call there.
impl Drop for States {
    fn drop(self) {
        let States { rows: _ } = self;
    }
}

impl Model for States {
    ghost use Rattle.lockmachine.specs.Inodes.{CountedStates, each_value};
    ghost use Rattle.lockmachine.specs.Codes.{counted_states_code};
    ghost use Rattle.lockmachine.specs.declared.states.LocksAt.{LocksAt};

    ghost Value = { CountedStates };

    ghost coded = { counted_states_code };

    ghost view = { λ s. record { states = each_value (λ (at : LocksAt). at.locks) s.rows; counts = each_value (λ (at : LocksAt). at.counts) s.rows } };
}

impl States {
    // Of no inode.
    pub(crate) fn new(alloc: Global) -> States
        ensures { result ≡ record { states = map.empty; counts = map.empty } }
    {
        States {
            rows: Numbered::new(alloc),
        }
    }

    // The locks of an inode, where it has any.
    pub(crate) fn get(&self, ino: Ino) -> Option<&InodeLocks>
        ensures { option_copied result ≡ map.get self.now.states ino.0 }
    {
        Some(&self.rows.get(ino.0)?.locks)
    }

    // The locks of an inode with their counts, where it has any.
    pub(crate) fn counted(&self, ino: Ino) -> Option<LocksAt>
        ensures locks { option_map (λ at. at.locks) result ≡ map.get self.now.states ino.0 }
        ensures counts { option_map (λ at. at.counts) result ≡ map.get self.now.counts ino.0 }
    {
        self.rows.get(ino.0).copied()
    }

    // The inodes that have locks, in the order of their numbers.
    pub(crate) fn inos(&self) -> Keys<'_, u64, usize>
        ensures { result ≡ map.keys self.now.states }
    {
        self.rows.keys()
    }

    // Gives an inode these locks, whose counts are 0. For want of memory nothing changes.
    pub(crate) fn insert(&mut self, ino: Ino, locks: InodeLocks) -> Result<(), AllocError>
        ensures ok { OnOk result (self.new ≡ record { states = map.insert self.old.states ino.0 locks; counts = map.insert self.old.counts ino.0 counted.no_counts }) }
        ensures err { OnErr result (self.new ≡ self.old) }
    {
        let counts = Counts::none();
        self.rows.insert(ino.0, LocksAt { locks, counts })
    }

    // Takes the locks of an inode away, with their counts.
    pub(crate) fn remove(&mut self, ino: Ino)
        ensures { self.new ≡ record { states = map.remove self.old.states ino.0; counts = map.remove self.old.counts ino.0 } }
    {
        self.rows.remove(ino.0);
    }

    // Puts the lock of an inode's part, if it has one, in another state. Its count stays.
    pub(crate) fn set(&mut self, ino: Ino, part: Part, state: LockState)
        ensures { self.new ≡ record self.old { states = change_at (words.with_lock_in part state) self.old.states ino.0 } }
    {
        if let Some(at) = self.rows.get_mut(ino.0) {
            at.locks.set(part, state);
        }
    }

    // Gives the lock of an inode's part, if it has one, another count. Its state stays.
    pub(crate) fn set_count(&mut self, ino: Ino, part: Part, count: u32)
        ensures set { self.new ≡ record self.old { counts = change_at (counted.with_count_in part count) self.old.counts ino.0 } }
        ensures had { words.HaveCounts self.old.states self.old.counts }
    {
        if let Some(at) = self.rows.get_mut(ino.0) {
            at.counts.set(part, count);
        }
    }

    // Takes one off the count of the lock of an inode's part, if it has one, and its count is not 0.
    pub(crate) fn count_down(&mut self, ino: Ino, part: Part)
        ensures { self.new ≡ record self.old { counts = change_at (counted.one_less_in part) self.old.counts ino.0 } }
    {
        if let Some(at) = self.rows.get_mut(ino.0) {
            at.counts.count_down(part);
        }
    }
}
