//! Grants as an MDS has them, and lists of them.

use crate::flags::Flags;
use std::alloc::{AllocError, Global};
use std::marker::Model;

/// The bytes of a name, a path or a network, as they stand in the text of a grant.
pub struct Text {
    bytes: Vec<u8>,
}

// By hand, so that whoever lets one go has one call to prove.
impl Drop for Text {
    fn drop(self) {
        let Text { bytes: _ } = self;
    }
}

impl Model for Text {
    ghost use Rattle.std.specs.Prelude.{List, ℕ};

    ghost Value = { List ℕ };

    ghost view = { λ text. text.bytes.items };
}

impl Text {
    ghost use Rattle.std.specs.Prelude.{◌≡◌, IfOk};

    /// These bytes, in memory of their own.
    pub fn of(alloc: Global, bytes: &[u8]) -> Result<Text, AllocError>
        ensures { IfOk result (λ text. text ≡ bytes.now) }
    {
        Ok(Text {
            bytes: Vec::from_slice(alloc, bytes)?,
        })
    }

    /// The bytes.
    pub fn as_bytes(&self) -> &[u8]
        ensures { result.now ≡ self.now }
    {
        self.bytes.as_slice()
    }
}

/// The group ids that a grant lists, as they stand in its text; none where it lists none.
pub struct GidList {
    gids: Vec<u32>,
}

// By hand, so that whoever lets one go has one call to prove.
impl Drop for GidList {
    fn drop(self) {
        let GidList { gids: _ } = self;
    }
}

impl Model for GidList {
    ghost use Rattle.std.specs.Prelude.{List, ℕ};

    ghost Value = { List ℕ };

    ghost view = { λ list. list.gids.items };
}

impl GidList {
    ghost use Rattle.std.specs.Prelude.{◌≡◌, ◌++◌, ◌∷◌, [], IfOk, OnOk};

    /// No gid.
    pub fn new(alloc: Global) -> GidList
        ensures { result ≡ [] }
    {
        GidList {
            gids: Vec::new(alloc),
        }
    }

    /// These gids, in memory of their own.
    pub(crate) fn of(alloc: Global, gids: &[u32]) -> Result<GidList, AllocError>
        ensures { IfOk result (λ list. list ≡ gids.now) }
    {
        Ok(GidList {
            gids: Vec::from_slice(alloc, gids)?,
        })
    }

    /// Adds a gid at the end.
    pub fn push(&mut self, gid: u32) -> Result<(), AllocError>
        ensures { OnOk result (self.new ≡ self.old ++ gid ∷ []) }
    {
        self.gids.push(gid)?;
        Ok(())
    }

    /// The gids, in their order.
    pub fn as_slice(&self) -> &[u32]
        ensures { result.now ≡ self.now }
    {
        self.gids.as_slice()
    }
}

/// What one grant says, as it stands in its text. What a release makes of it is for the rules to say: so a `uid=0` is kept, which names nobody
/// in some.
pub struct Grant {
    /// Reading, and what the flags name besides.
    pub flags: Flags,
    /// The file system that the grant is for; none is every file system.
    pub fsname: Option<Text>,
    /// The directory that the grant is for, with its slashes; none is the whole tree.
    pub path: Option<Text>,
    /// Whether the grant lets root, by uid or by gid, do no more than read.
    pub root_squash: bool,
    /// The user that the grant is for; none is every user.
    pub uid: Option<u32>,
    /// The groups by which that user acts; they mean nothing without a user.
    pub gids: GidList,
    /// The network from which a client has to come; none is any.
    pub network: Option<Text>,
}

// By hand, so that whoever lets one go has one call to prove.
impl Drop for Grant {
    fn drop(self) {
        let Grant {
            flags: _,
            fsname: _,
            path: _,
            root_squash: _,
            uid: _,
            gids: _,
            network: _,
        } = self;
    }
}

/// The grants of a text, in their order.
pub struct Grants {
    grants: Vec<Grant>,
}

// By hand, so that whoever lets one go has one call to prove.
impl Drop for Grants {
    fn drop(self) {
        let Grants { grants: _ } = self;
    }
}

impl Model for Grants {
    ghost use Rattle.std.specs.Prelude.{List};
    ghost use Rattle.release_grants.specs.declared.grant.Grant.{Grant};

    ghost Value = { List Grant };

    ghost view = { λ list. list.grants.items };
}

impl Grants {
    ghost use Rattle.std.specs.Prelude.{◌≡◌, ◌++◌, ◌∷◌, [], OnOk};

    // No grant.
    pub(crate) fn new(alloc: Global) -> Grants
        ensures { result ≡ [] }
    {
        Grants {
            grants: Vec::new(alloc),
        }
    }

    // Adds a grant at the end.
    pub(crate) fn push(&mut self, grant: Grant) -> Result<(), AllocError>
        ensures { OnOk result (self.new ≡ self.old ++ grant ∷ []) }
    {
        self.grants.push(grant)?;
        Ok(())
    }

    /// The grants, in the order of the text.
    pub fn as_slice(&self) -> &[Grant]
        ensures { result.now ≡ self.now }
    {
        self.grants.as_slice()
    }
}
