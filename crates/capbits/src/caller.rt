//! Who asks for an access: a user with its groups.
ghost use Rattle.std.specs.Prelude.{◌≡◌, ℕ, ◌<◌, ◌≤◌, ◌==◌, ◌↔◌, List, [], ◌∷◌, ◌++◌, length, Some, codes, IsTrue, IsOk, OnOk, OnErr};
ghost use Rattle.std.specs.List.{list_any};
ghost use Rattle.std.specs.Slice.Iter.{iter_rest};

use arrayvec::ArrayVec;
use std::marker::Model;
use std::{fmt, slice};
use thiserror::Error;

/// How many groups a caller may have besides its first.
pub const MAX_GROUPS: usize = 16;

/// The groups of a caller besides its first, at most `MAX_GROUPS`, as group ids in the order in which they were given.
#[derive(Debug, PartialEq, Eq, Drop)]
pub struct Groups {
    gids: ArrayVec<u32, MAX_GROUPS>,
}

impl Model for Groups {
    ghost Value = { List ℕ };

    ghost view = { λ groups. groups.gids.items };

    ghost inverse = { λ gids. record { gids = record { items = gids } } };
}

/// The answer where a caller has `MAX_GROUPS` groups already.
#[derive(Clone, Copy, Debug, PartialEq, Eq, Error)]
pub struct TooManyGroups;

impl fmt::Display for TooManyGroups {
    ghost output = { λ _. Some (codes "too many groups") };

    fn fmt<W: fmt::Write>(&self, f: &mut fmt::Formatter<W>) -> fmt::Result {
        f.write_str("too many groups")
    }
}

impl Groups {
    /// No groups.
    pub fn new() -> Self
        ensures { result ≡ [] }
    {
        Groups {
            gids: ArrayVec::new(),
        }
    }

    /// The vector of the group ids.
    pub fn into_inner(self) -> ArrayVec<u32, MAX_GROUPS>
        ensures { result.items ≡ self }
    {
        let Groups { gids } = self;
        gids
    }

    /// Appends `gid`, if there is room. The groups stay as they were where there is none.
    pub fn try_push(&mut self, gid: u32) -> Result<(), TooManyGroups>
        ensures room { IsOk result ↔ (length self.old < MAX_GROUPS) }
        ensures ok { OnOk result (self.new ≡ self.old ++ gid ∷ []) }
        ensures err { OnErr result (self.new ≡ self.old) }
    {
        self.gids.try_push(gid).map_err(|_| TooManyGroups)
    }

    /// How many groups there are.
    pub fn len(&self) -> usize
        ensures value { result ≡ length self.now }
        ensures fits { result ≤ MAX_GROUPS }
    {
        self.gids.len()
    }

    /// Whether there is no group.
    pub fn is_empty(&self) -> bool
        ensures { IsTrue result ↔ (self.now ≡ []) }
    {
        self.gids.is_empty()
    }

    /// The group ids, in order.
    pub fn as_slice(&self) -> &[u32]
        ensures value { result.now ≡ self.now }
        ensures fits { length result.now ≤ MAX_GROUPS }
    {
        self.gids.as_slice()
    }

    /// The group ids one by one, in order.
    pub fn iter(&self) -> slice::Iter<'_, u32>
        ensures { iter_rest result ≡ self.now }
    {
        self.gids.iter()
    }
}

impl Default for Groups {
    ghost is_default = { λ groups. groups ≡ [] };

    fn default() -> Self {
        Groups::new()
    }
}

impl From<ArrayVec<u32, MAX_GROUPS>> for Groups {
    ghost from_gives = { λ gids groups. groups ≡ gids.items };

    fn from(gids: ArrayVec<u32, MAX_GROUPS>) -> Self {
        Groups { gids }
    }
}

/// Who asks for an access. The caller's gids are `gid` and `groups`.
#[derive(Debug, PartialEq, Eq, Drop)]
pub struct Caller {
    /// The user id. 0 is root.
    pub uid: u32,
    /// The id of the first group.
    pub gid: u32,
    /// The further groups.
    pub groups: Groups,
}

impl Caller {
    ghost use Rattle.capbits.specs.Caller.{gids_of};

    /// Whether `gid` is one of the caller's gids.
    pub fn has_gid(&self, gid: u32) -> bool
        ensures { result ≡ list_any (λ g. g == gid) (gids_of self.now) }
    {
        self.gid == gid || self.groups.as_slice().contains(&gid)
    }

    /// A copy of the caller, which takes no memory.
    pub fn copy(&self) -> Caller
        ensures { result ≡ self.now }
    {
        let Ok(gids) = ArrayVec::try_from(self.groups.as_slice()) else {
            unreachable!()
        };
        Caller {
            uid: self.uid,
            gid: self.gid,
            groups: Groups { gids },
        }
    }
}
