//! Grants, and lists of them.

use crate::fault::{SpecFault, SpecFaultKind};
use crate::flags::Flags4;
use crate::fsname::FsName;
use crate::gids::Gids;
use crate::tree_path::TreePath;
use std::alloc::{AllocError, Global};
use std::marker::Model;

/// How many grants a text may have.
pub const MAX_GRANTS: usize = 16;

/// What one grant allows, and to whom.
#[derive(Debug)]
pub struct Grant {
    /// Reading, and of writing, `ceph.` attributes and snapshots what the flag word names.
    pub flags: Flags4,
    /// The file system that the grant is for; none is every file system.
    pub fsname: Option<FsName>,
    /// The directory that the grant is for, with all below it.
    pub path: TreePath,
    /// The one uid that the grant is for; where it names one, owner, group and mode bits of the inode decide too. None is every caller.
    pub uid: Option<u32>,
    /// The groups that count for the grant; none where it lists none.
    pub gids: Gids,
    /// Whether the grant lets root, by uid or by gid, do no more than read.
    pub root_squash: bool,
}

// Not derived: so the proof of a function that drops one has a single call there.
impl Drop for Grant {
    fn drop(self) {
        let Grant {
            flags: _,
            fsname: _,
            path: _,
            uid: _,
            gids: _,
            root_squash: _,
        } = self;
    }
}

impl Grant {
    ghost use Rattle.std.specs.Prelude.{◌≡◌, IfOk};

    /// A copy of the grant, in memory of its own.
    pub fn copy(&self) -> Result<Grant, AllocError>
        ensures { IfOk result (λ copy. copy ≡ self.now) }
    {
        Ok(Grant {
            flags: self.flags,
            fsname: self.fsname.clone()?,
            path: self.path.copy()?,
            uid: self.uid,
            gids: self.gids.clone()?,
            root_squash: self.root_squash,
        })
    }
}

/// The grants of one client, at most 16, in the order of their text: none, or grants that a text can say.
#[derive(Debug)]
pub struct Grants {
    grants: Vec<Grant>,
}

// Not derived: so the proof of a function that drops one has a single call there.
impl Drop for Grants {
    fn drop(self) {
        let Grants { grants: _ } = self;
    }
}

impl Model for Grants {
    ghost use Rattle.std.specs.Prelude.{List};
    ghost use Rattle.capspec.specs.declared.grant.Grant.{Grant};

    ghost Value = { List Grant };

    ghost use Rattle.capspec.specs.Grants.{AreNoneOrRead};

    ghost view = { λ list. list.grants.items };

    ghost invariant = { λ list. AreNoneOrRead list.grants.items };
}

impl Grants {
    ghost use Rattle.std.specs.Prelude.{◌≡◌, ◌≤◌, ◌↔◌, [], length, slice_get, IsTrue, IsErr, IfOk, IsOkAnd, MatchResult};
    ghost use Rattle.capspec.specs.declared.fault.SpecFaultKind.TheVariants as kinds;
    ghost use Rattle.std.specs.Option.{option_copied};
    ghost use Rattle.capspec.specs.Grants.{AreNoneOrRead};

    // The grants that a text gave, if there was memory for them.
    pub(crate) fn from_gathered(grants: Result<Vec<Grant>, AllocError>) -> Result<Grants, SpecFault>
        requires { IfOk grants (λ grants. AreNoneOrRead grants.items) }
        ensures { MatchResult result (λ kept. IsOkAnd grants (λ grants. kept ≡ grants.items)) (λ fault. (fault ≡ record { at = 0; kind = kinds.NoMemory }) × IsErr grants) }
    {
        match grants {
            Ok(grants) => Ok(Grants { grants }),
            Err(AllocError) => Err(SpecFault {
                at: 0,
                kind: SpecFaultKind::NoMemory,
            }),
        }
    }

    /// No grant: nothing is allowed.
    pub fn none(alloc: Global) -> Result<Grants, AllocError>
        ensures { IfOk result (λ none. none ≡ []) }
    {
        Ok(Grants {
            grants: Vec::new(alloc),
        })
    }

    /// A copy of the grants, in memory of their own.
    pub fn copy(&self) -> Result<Grants, AllocError>
        ensures { IfOk result (λ copy. copy ≡ self.now) }
    {
        let mut grants = Vec::with_capacity(*self.grants.allocator(), self.grants.len())?;
        for grant in &self.grants {
            grants.push(grant.copy()?)?;
        }
        Ok(Grants { grants })
    }

    /// Gives the room back that these grants don't use, where they are kept for long: a list that is read has room for four at least.
    pub fn shrink_to_fit(&mut self)
        ensures { self.new ≡ self.old }
    {
        self.grants.shrink_to_fit();
    }

    /// How many grants there are: at most 16.
    pub fn len(&self) -> usize
        ensures length { result ≡ length self.now }
        ensures few { length self.now ≤ 16 }
    {
        self.grants.len()
    }

    /// Whether there is no grant: then nothing is allowed.
    pub fn is_empty(&self) -> bool
        ensures { IsTrue result ↔ (self.now ≡ []) }
    {
        self.grants.is_empty()
    }

    /// The grant at a place, the first at 0.
    pub fn get(&self, place: usize) -> Option<&Grant>
        ensures { option_copied result ≡ slice_get self.now place }
    {
        self.grants.get(place)
    }

    /// The grants, in the order of their text.
    pub fn as_slice(&self) -> &[Grant]
        ensures same { result.now ≡ self.now }
        // There are none, or some text means them.
        ensures read { AreNoneOrRead self.now }
    {
        self.grants.as_slice()
    }
}
