//! What an event changes for readers.
ghost use Rattle.std.specs.Prelude.{◌≡◌, IfOk};
ghost use Rattle.policy_view.specs.declared.change.ViewChange.TheVariants as change;

use capbits::{Caller, ClientId, Ino};
use capgrant::Attr;
use capspec::Grants;
use inotree::Name;
use std::alloc::AllocError;
use std::fmt;

/// One change of what readers see.
pub enum ViewChange {
    /// An inode was made.
    Born {
        ino: Ino,
        /// The directory that it stands in.
        dir: Ino,
        /// Its name there.
        name: Name,
        /// Its owner, its group and its mode.
        attr: Attr,
        /// Whether it is a directory.
        is_dir: bool,
    },
    /// An inode was moved, and all below it with it.
    Moved {
        ino: Ino,
        /// The directory that it stands in now.
        dir: Ino,
        /// Its name there.
        name: Name,
    },
    /// An inode was unlinked or removed, and is a stray.
    Removed {
        ino: Ino,
    },
    /// A stray was forgotten.
    Forgotten {
        /// The stray.
        ino: Ino,
    },
    /// An inode has another owner, group or mode.
    Settled {
        ino: Ino,
        /// Its owner, its group and its mode now.
        attr: Attr,
    },
    /// A client was connected.
    Opened {
        client: ClientId,
        /// The user for whom it asks.
        caller: Caller,
        /// What it may do, and where.
        grants: Grants,
    },
    /// The session of a client ended.
    Ended {
        client: ClientId,
    },
    /// A client that is connected has other grants.
    Regranted {
        client: ClientId,
        /// What it may do now, and where.
        grants: Grants,
    },
}

// Not derived: so the proof of a function that drops one has a single call there.
impl Drop for ViewChange {
    fn drop(self) {
        match self {
            ViewChange::Born {
                ino: _,
                dir: _,
                name: _,
                attr: _,
                is_dir: _,
            } => {}
            ViewChange::Moved {
                ino: _,
                dir: _,
                name: _,
            } => {}
            ViewChange::Removed { ino: _ } => {}
            ViewChange::Forgotten { ino: _ } => {}
            ViewChange::Settled { ino: _, attr: _ } => {}
            ViewChange::Opened {
                client: _,
                caller: _,
                grants: _,
            } => {}
            ViewChange::Ended { client: _ } => {}
            ViewChange::Regranted {
                client: _,
                grants: _,
            } => {}
        }
    }
}

/// Tells nothing of the change but that it is one.
impl fmt::Debug for ViewChange {
    fn fmt<W: fmt::Write>(&self, f: &mut fmt::Formatter<W>) -> fmt::Result {
        f.debug_struct("ViewChange").finish_non_exhaustive()
    }
}

impl ViewChange {
    /// A copy of the change. Of its parts only grants take memory.
    pub fn copy(&self) -> Result<ViewChange, AllocError>
        ensures { IfOk result (λ copy. copy ≡ self.now) }
    {
        match self {
            ViewChange::Born {
                ino,
                dir,
                name,
                attr,
                is_dir,
            } => Ok(ViewChange::Born {
                ino: *ino,
                dir: *dir,
                name: name.copy(),
                attr: *attr,
                is_dir: *is_dir,
            }),
            ViewChange::Moved { ino, dir, name } => Ok(ViewChange::Moved {
                ino: *ino,
                dir: *dir,
                name: name.copy(),
            }),
            ViewChange::Removed { ino } => Ok(ViewChange::Removed { ino: *ino }),
            ViewChange::Forgotten { ino } => Ok(ViewChange::Forgotten { ino: *ino }),
            ViewChange::Settled { ino, attr } => Ok(ViewChange::Settled {
                ino: *ino,
                attr: *attr,
            }),
            ViewChange::Opened {
                client,
                caller,
                grants,
            } => ViewChange::of_opening(*client, caller, grants),
            ViewChange::Ended { client } => Ok(ViewChange::Ended { client: *client }),
            ViewChange::Regranted { client, grants } => ViewChange::of_regrant(*client, grants),
        }
    }

    /// That a client was connected, with copies of its caller and its grants.
    pub fn of_opening(
        client: ClientId,
        caller: &Caller,
        grants: &Grants,
    ) -> Result<ViewChange, AllocError>
        ensures { IfOk result (λ made. made ≡ change.Opened client caller.now grants.now) }
    {
        let grants = grants.copy()?;
        Ok(ViewChange::Opened {
            client,
            caller: caller.copy(),
            grants,
        })
    }

    /// That a client has other grants, with a copy of them.
    pub fn of_regrant(client: ClientId, grants: &Grants) -> Result<ViewChange, AllocError>
        ensures { IfOk result (λ made. made ≡ change.Regranted client grants.now) }
    {
        let grants = grants.copy()?;
        Ok(ViewChange::Regranted { client, grants })
    }
}
