//! The requests that wait for a lock.
ghost use Rattle.std.specs.Prelude.{◌≡◌, IfOk};
ghost use Rattle.lockmachine.specs.Requests as words;

use crate::bytes::Bytes;
use capbits::{ClientId, Ino, Part, Ticket};
use inotree::Setting;
use locktable::Head;
use std::alloc::{AllocError, Global};

/// A change of what an inode keeps.
#[derive(Debug)]
pub enum Change {
    /// A new value of one field.
    Set(Setting),
    /// A new value of an extended attribute.
    SetXattr {
        /// The attribute.
        name: Bytes,
        value: Bytes,
    },
    /// An extended attribute less.
    RemoveXattr {
        /// The attribute.
        name: Bytes,
    },
}

// Not derived: so the proof of a function that drops one has a single call there.
impl Drop for Change {
    fn drop(self) {
        match self {
            Change::Set(_) => {}
            Change::SetXattr { name: _, value: _ } => {}
            Change::RemoveXattr { name: _ } => {}
        }
    }
}

/// What a request that waits for a lock does with its inode.
#[derive(Debug)]
pub enum Operation {
    /// Tell what the inode keeps of this part.
    Get(Part),
    /// Change it.
    Alter(Change),
    /// Unlink it, a file.
    Unlink,
    /// Remove it, an empty directory.
    Rmdir,
    /// Move it into a directory, under a name.
    Rename {
        dir: Ino,
        /// The name in it.
        name: Bytes,
    },
}

// Not derived: so the proof of a function that drops one has a single call there.
impl Drop for Operation {
    fn drop(self) {
        match self {
            Operation::Get(_) => {}
            Operation::Alter(_) => {}
            Operation::Unlink => {}
            Operation::Rmdir => {}
            Operation::Rename { dir: _, name: _ } => {}
        }
    }
}

/// A request that waits for a lock.
#[derive(Debug)]
pub struct Request {
    /// Its number, which is greater than those of all earlier ones.
    pub ticket: Ticket,
    /// The client that sent it.
    pub client: ClientId,
    /// The inode whose lock it waits for.
    pub ino: Ino,
    /// What it does.
    pub operation: Operation,
}

// Not derived: so the proof of a function that drops one has a single call there.
impl Drop for Request {
    fn drop(self) {
        let Request {
            ticket: _,
            client: _,
            ino: _,
            operation: _,
        } = self;
    }
}

impl Change {
    /// A copy of the change.
    pub fn copy(&self, alloc: Global) -> Result<Change, AllocError>
        ensures { IfOk result (λ copy. copy ≡ self.now) }
    {
        match self {
            Change::Set(setting) => Ok(Change::Set(*setting)),
            Change::SetXattr { name, value } => {
                let name = Bytes::read(alloc, name.as_slice())?;
                match Bytes::read(alloc, value.as_slice()) {
                    Ok(value) => Ok(Change::SetXattr { name, value }),
                    Err(refused) => {
                        drop(name);
                        Err(refused)
                    }
                }
            }
            Change::RemoveXattr { name } => {
                let name = Bytes::read(alloc, name.as_slice())?;
                Ok(Change::RemoveXattr { name })
            }
        }
    }

    /// The part that changes.
    pub fn part(&self) -> Part
        ensures { result ≡ words.part_of_change self.now }
    {
        match self {
            Change::Set(Setting::Mode(_) | Setting::Uid(_) | Setting::Gid(_)) => Part::A,
            Change::Set(Setting::Size(_) | Setting::Time(_)) => Part::F,
            Change::SetXattr { .. } | Change::RemoveXattr { .. } => Part::X,
        }
    }
}

impl Operation {
    // The part whose lock the request waits for.
    pub(crate) fn part(&self) -> Part
        ensures { result ≡ words.part_of_operation self.now }
    {
        match self {
            Operation::Get(part) => *part,
            Operation::Alter(change) => change.part(),
            Operation::Unlink | Operation::Rmdir | Operation::Rename { .. } => Part::L,
        }
    }

    // What the lock sees of the request, where it is the first in its queue.
    pub(crate) fn head(&self, client: ClientId) -> Head
        ensures { result ≡ words.head_of_operation client self.now }
    {
        match self {
            Operation::Get(_) => Head::Read(client),
            Operation::Alter(_) | Operation::Unlink | Operation::Rmdir | Operation::Rename { .. } =>
                Head::Change,
        }
    }
}

impl Request {
    // Whether it waits for the lock of this part.
    pub(crate) fn is_for(&self, ino: Ino, part: Part) -> bool
        ensures { result ≡ words.is_for ino.0 part self.now }
    {
        self.ino.0 == ino.0 && self.operation.part() == part
    }
}
