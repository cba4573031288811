//! The grants of a session, whose paths are compared with those of many inodes.
ghost use Rattle.std.specs.Prelude.{◌≡◌, ◌<◌, ◌≤◌, List, length, map};
ghost use Rattle.capspec.specs.declared.grant.Grant.{Grant as AGrant};
ghost use Rattle.capspec.specs.SharedPrefix.{AreAlike, AreSharedPrefixes, IsAlike};

use crate::grant::{Grant, Grants, MAX_GRANTS};
use crate::shared_prefix::{NOTHING_SHARED, SharedPrefix, count_shared, go_on, shared_prefix_in};
use arrayvec::ArrayVec;
use std::fmt;
use std::marker::Model;

// The paths of a list that take less are compared one by one, which costs less than to look at what they share.
const SHORT_PATHS: usize = 1024;

/// Another grant, by its place, and how many first bytes of its path's text a grant's path shares.
#[derive(Clone, Copy, Default)]
struct Alike {
    other: usize,
    bytes: usize,
}

/// The grants of a session. What long paths share is compared with an inode's path once, and not for each of them.
pub struct KeptGrants {
    grants: Grants,
    // Of each the one before it whose path is the most like its own. Empty where all are short.
    alike: ArrayVec<Alike, MAX_GRANTS>,
}

// Not derived: so the proof of a function that drops one has a single call there.
impl Drop for KeptGrants {
    fn drop(self) {
        let KeptGrants {
            grants: _,
            alike: _,
        } = self;
    }
}

impl fmt::Debug for KeptGrants {
    fn fmt<W: fmt::Write>(&self, f: &mut fmt::Formatter<W>) -> fmt::Result {
        fmt::Debug::fmt(&self.grants, f)
    }
}

impl Model for KeptGrants {
    ghost Value = { List AGrant };

    ghost view = { λ kept. kept.grants };

    ghost invariant = { λ kept. AreAlike kept.grants kept.alike.items };
}

impl KeptGrants {
    /// Keeps these grants. Needs no memory.
    pub fn new(grants: Grants) -> KeptGrants
        ensures { result ≡ grants }
    {
        let alike = like_each_other(grants.as_slice());
        KeptGrants { grants, alike }
    }

    /// The grants.
    pub fn grants(&self) -> &Grants
        ensures { result.now ≡ self.now }
    {
        &self.grants
    }

    /// Whether the paths are so long that what they share is looked at.
    pub fn has_long_paths(&self) -> bool {
        !self.alike.is_empty()
    }

    /// How far the paths of the first grants begin with these names: of all where their paths are long, and else of none. Needs no
    /// memory.
    pub fn shared_prefixes(&self, names: &[&[u8]]) -> ArrayVec<SharedPrefix, MAX_GRANTS>
        ensures { AreSharedPrefixes (map (λ name. name.now) names.now) self.now result.items }
    {
        let grants = self.grants.as_slice();
        let mut shared_prefix: ArrayVec<SharedPrefix, MAX_GRANTS> = ArrayVec::new();
        for (place, alike) in self.alike.iter().enumerate() {
            let text = grants[place].path.as_bytes();
            let here = match shared_prefix.get(alike.other) {
                Some(known) => shared_prefix_in(names, text, *known, alike.bytes),
                None => go_on(names, text, NOTHING_SHARED),
            };
            shared_prefix.push(here);
        }
        shared_prefix
    }
}

// Of each grant the one before it whose path is the most like its own; of none where the paths are short.
fn like_each_other(grants: &[Grant]) -> ArrayVec<Alike, MAX_GRANTS>
    requires { length grants.now ≤ MAX_GRANTS }
    ensures { AreAlike grants.now result.items }
{
    let mut alike = ArrayVec::new();
    if has_short_paths(grants) {
        return alike;
    }
    for place in 0..grants.len() {
        alike.push(most_alike(grants, place));
    }
    alike
}

// Whether all paths together are short.
fn has_short_paths(grants: &[Grant]) -> bool {
    let mut left = SHORT_PATHS;
    for grant in grants {
        let len = grant.path.as_bytes().len();
        if left < len {
            return false;
        }
        left -= len;
    }
    true
}

// The grant before the one at this place whose path shares most first bytes with its own.
fn most_alike(grants: &[Grant], place: usize) -> Alike
    requires { place < length grants.now }
    ensures { IsAlike grants.now place result }
{
    let mut most = Alike {
        other: place,
        bytes: 0,
    };
    for other in 0..place {
        let bytes = count_shared(grants[other].path.as_bytes(), grants[place].path.as_bytes());
        if most.bytes < bytes {
            most = Alike { other, bytes };
        }
    }
    most
}
