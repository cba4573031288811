//! Paths in the tree.

use crate::measure::{count_slashes, has_fit_names};
use crate::names::is_text_of;
use crate::path::{is_slashed, split_names, write_names};
use crate::shared_prefix::SharedPrefix;
use std::alloc::{AllocError, Global};
use std::marker::Model;

/// The place of an inode in the tree, or the directory that a grant is for, as the list of its names from the root down.
/// In a grant, no name is no restriction.
#[derive(Debug)]
pub struct TreePath {
    // The names with a slash before each.
    text: Vec<u8>,
    // How many names there are.
    count: usize,
}

// Not derived: so the proof of a function that drops one has a single call there.
impl Drop for TreePath {
    fn drop(self) {
        let TreePath { text: _, count: _ } = self;
    }
}

impl Model for TreePath {
    ghost use Rattle.std.specs.Prelude.{◌≡◌, ℕ, List, length};
    ghost use Rattle.capspec.specs.Paths.{names_of, slashed};

    ghost Value = { List (List ℕ) };

    ghost view = { λ path. names_of path.text.items };

    ghost invariant = { λ path. (path.text.items ≡ slashed (names_of path.text.items)) × (path.count ≡ length (names_of path.text.items)) };
}

impl TreePath {
    ghost use Rattle.std.specs.Prelude.{◌≡◌, ◌++◌, ℕ, List, IfOk, OnOk, OnErr, All, IsTrue, IsFalse, MatchOption, map};
    ghost use Rattle.std.specs.List.{starts_with};
    ghost use Rattle.std.specs.Str.{bytes_eq};
    ghost use Rattle.capspec.specs.SharedPrefix.{IsSharedPrefix};
    ghost use Rattle.capspec.specs.Paths.{are_few_and_short, is_name, names_of, slashed};

    /// The path that a text names. Slashes only separate: leading, trailing and doubled ones mean nothing.
    pub fn from_text(alloc: Global, text: &[u8]) -> Result<TreePath, AllocError>
        ensures { IfOk result (λ path. path ≡ names_of text.now) }
    {
        if is_slashed(text) {
            return Ok(TreePath::from_slashed(Vec::from_slice(alloc, text)?));
        }
        let mut slashed = Vec::new(alloc);
        match write_names(&mut slashed, text) {
            Ok(()) => Ok(TreePath::from_slashed(slashed)),
            Err(AllocError) => Err(AllocError),
        }
    }

    /// The path that a text names, if it has at most 32 names of at most 255 bytes each.
    pub fn read(alloc: Global, text: &[u8]) -> Result<Option<TreePath>, AllocError>
        ensures ok { IfOk result (λ found. MatchOption found (IsFalse (are_few_and_short (names_of text.now))) (λ path. (path ≡ names_of text.now) × IsTrue (are_few_and_short path))) }

        // Memory is missed only where there is a path.
        ensures err { OnErr result (IsTrue (are_few_and_short (names_of text.now))) }
    {
        if !has_fit_names(text) {
            return Ok(None);
        }
        Ok(Some(TreePath::from_text(alloc, text)?))
    }

    /// The path with these names, from the root down. A name has a byte, and no slash.
    pub fn of(alloc: Global, names: &[&[u8]]) -> Result<TreePath, AllocError>
        requires { All (λ name. IsTrue (is_name name.now)) names.now }
        ensures { IfOk result (λ path. path ≡ map (λ name. name.now) names.now) }
    {
        let mut text = Vec::new(alloc);
        for name in names {
            text.push(b'/')?;
            text.extend_from_slice(name)?;
        }
        Ok(TreePath::from_slashed(text))
    }

    // The path whose text is this one, its names with a slash before each.
    fn from_slashed(text: Vec<u8>) -> TreePath
        requires { text.items ≡ slashed (names_of text.items) }
        ensures { result ≡ names_of text.items }
    {
        let count = count_slashes(text.as_slice());
        TreePath { text, count }
    }

    /// The names as a text, with a slash before each.
    pub fn as_bytes(&self) -> &[u8]
        ensures { result.now ≡ slashed self.now }
    {
        self.text.as_slice()
    }

    /// The names, from the root down.
    pub fn names(&self, alloc: Global) -> Result<Vec<&[u8]>, AllocError>
        ensures { IfOk result (λ names. map (λ name. name.now) names.items ≡ self.now) }
    {
        split_names(alloc, self.text.as_slice())
    }

    /// Each of its names has a byte, and no slash. This says so to a caller's proof; it does nothing.
    #[inline(always)]
    pub fn are_names(&self)
        ensures { All (λ name. IsTrue (is_name name)) self.now }
    {
        let _text = &self.text;
    }

    /// Whether this path is the beginning of these names, so that they lead from the root to it or below it. Needs no memory.
    #[inline(always)]
    pub fn leads_to(&self, names: &[&[u8]]) -> bool
        ensures { result ≡ starts_with bytes_eq (map (λ name. name.now) names.now) self.now }
    {
        self.count <= names.len() && is_text_of(self.text.as_slice(), &names[..self.count])
    }

    /// Whether this path is the beginning of some names, where it is known how many of them its text begins with. Needs no memory.
    pub fn leads_by_prefix(&self, shared_prefix: SharedPrefix) -> bool
        ensures { (names : List (List ℕ)) → IsSharedPrefix names (slashed self.now) shared_prefix → result ≡ starts_with bytes_eq names self.now }
    {
        shared_prefix.count == self.count && shared_prefix.size == self.text.as_slice().len()
    }

    // A copy of the path, in memory of its own.
    pub(crate) fn copy(&self) -> Result<TreePath, AllocError>
        ensures { IfOk result (λ copy. copy ≡ self.now) }
    {
        Ok(TreePath {
            text: self.text.clone()?,
            count: self.count,
        })
    }
}
