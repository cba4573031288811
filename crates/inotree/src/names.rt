//! The path of an inode, as a list of names that the tree lends.
ghost use Rattle.std.specs.Prelude.{◌≡◌, ◌==◌, ◌<◌, ◌≤◌, [], ◌∷◌, ◌++◌, length, reverse, map};

use arrayvec::ArrayVec;
use std::marker::Model;

/// How many names a path may have.
pub const MAX_NAMES: usize = 32;

/// At most `MAX_NAMES` names, as those from the root to an inode.
#[derive(Drop)]
pub struct Names<'a> {
    names: ArrayVec<&'a [u8], MAX_NAMES>,
}

impl<'a> Model for Names<'a> {
    ghost use Rattle.std.specs.Prelude.{List, map, ℕ};

    ghost Value = { List (List ℕ) };

    ghost view = { λ n. map (λ name. name.now) n.names.items };
}

impl<'a> Names<'a> {
    /// No names.
    pub fn new() -> Names<'a>
        ensures { result ≡ [] }
    {
        Names {
            names: ArrayVec::new(),
        }
    }

    // Adds a name behind the others.
    pub(crate) fn push(&mut self, name: &'a [u8])
        requires { length self.old < MAX_NAMES }
        ensures { self.new ≡ self.old ++ name.now ∷ [] }
    {
        self.names.push(name);
    }

    // Turns the names round.
    pub(crate) fn reverse(&mut self)
        ensures { self.new ≡ reverse self.old }
    {
        self.names.as_mut_slice().reverse();
    }

    /// How many names there are.
    pub fn len(&self) -> usize
        ensures value { result ≡ length self.now }
        ensures fits { result ≤ MAX_NAMES }
    {
        self.names.len()
    }

    /// Whether there are none.
    pub fn is_empty(&self) -> bool
        ensures { result ≡ (length self.now == 0) }
    {
        self.names.is_empty()
    }

    /// The names.
    pub fn as_slice(&self) -> &[&'a [u8]]
        ensures { map (λ name. name.now) result.now ≡ self.now }
    {
        self.names.as_slice()
    }
}
