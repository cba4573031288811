//! The group numbers that a grant lists.

use arrayvec::ArrayVec;
use std::marker::Model;

/// How many group numbers a grant may list.
pub const MAX_GIDS: usize = 16;

/// The group numbers that a grant lists, as they stand in its text: at most 16, and none where it lists none.
#[derive(Clone, Debug)]
pub struct Gids {
    gids: ArrayVec<u32, MAX_GIDS>,
}

// Not derived: so the proof of a function that drops one has a single call there.
impl Drop for Gids {
    fn drop(self) {
        let Gids { gids: _ } = self;
    }
}

impl Model for Gids {
    ghost use Rattle.std.specs.Prelude.{List, ℕ};

    ghost Value = { List ℕ };

    ghost view = { λ list. list.gids.items };

    ghost inverse = { λ gids. record { gids = record { items = gids } } };
}

impl From<ArrayVec<u32, MAX_GIDS>> for Gids {
    ghost use Rattle.std.specs.Prelude.{◌≡◌};

    ghost from_gives = { λ given gids. gids ≡ given.items };

    fn from(gids: ArrayVec<u32, MAX_GIDS>) -> Self {
        Gids { gids }
    }
}

impl Default for Gids {
    ghost use Rattle.std.specs.Prelude.{◌≡◌, []};

    ghost is_default = { λ gids. gids ≡ [] };

    fn default() -> Self {
        Gids::new()
    }
}

impl Gids {
    ghost use Rattle.std.specs.Prelude.{◌≡◌, [], ◌∷◌, ◌++◌, ◌<◌, ◌≤◌, ◌↔◌, length, IsTrue};
    ghost use Rattle.std.specs.Bool.{OnFalse, OnTrue};

    /// No group number.
    pub fn new() -> Gids
        ensures { result ≡ [] }
    {
        Gids {
            gids: ArrayVec::new(),
        }
    }

    /// How many there are.
    pub fn len(&self) -> usize
        ensures value { result ≡ length self.now }
        ensures few { result ≤ MAX_GIDS }
    {
        self.gids.len()
    }

    /// The group numbers, in their order.
    pub fn as_slice(&self) -> &[u32]
        ensures { result.now ≡ self.now }
    {
        self.gids.as_slice()
    }

    /// The vector of the group numbers.
    pub fn into_inner(self) -> ArrayVec<u32, MAX_GIDS>
        ensures { result.items ≡ self }
    {
        let Gids { gids } = self;
        gids
    }

    // Adds a group number at the end, if there is room.
    pub(crate) fn try_push(&mut self, gid: u32) -> bool
        ensures room { IsTrue result ↔ (length self.old < MAX_GIDS) }
        ensures added { OnTrue result (self.new ≡ self.old ++ gid ∷ []) }
        ensures full { OnFalse result (self.new ≡ self.old) }
    {
        self.gids.try_push(gid).is_ok()
    }
}
