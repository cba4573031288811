//! A tree that is read from its text piece by piece.

ghost use Rattle.std.specs.Prelude.{◌≡◌, MatchResult, Ok};
ghost use Rattle.ceph_input.specs.Dump.{IsTreeFault, dump, with_item};

use crate::cutter::RowCutter;
use crate::tree::{Tree, add_inode};
use crate::tree_fault::TreeFault;
use crate::values::{NoJson, read_json};
use std::alloc::{AllocError, Global};

/// Reads the tree that a text lists, of which it holds one item at a time. Each item is an inode, with numbers at `ino`, `uid`, `gid` and
/// `mode`, with who holds something of it at `client_caps`, and with the names in it at `dirfrags`, if it is a directory. The fault is
/// the first thing that is wrong, or want of memory; after it nothing is said of what follows.
pub struct TreeReader {
    rows: RowCutter,
    tree: Tree,
}

// Not derived: so the proof of a function that drops one has a single call there.
impl Drop for TreeReader {
    fn drop(self) {
        let TreeReader { rows: _, tree: _ } = self;
    }
}

impl TreeReader {
    ghost use Rattle.std.specs.Prelude.{◌≡◌, ◌+◌, ◌<◌, ◌^◌, ◌++◌, List, ℕ, [], IfOk, IfErr, OnOk, Ok, length};
    ghost use Rattle.ceph_input.specs.Dump.{IsTreeFault, dump, tree_left, tree_of};
    ghost use Rattle.ceph_input.specs.Reader.{so_far};

    /// A reader that has read nothing.
    pub fn new(alloc: Global) -> Result<TreeReader, AllocError>
        ensures text { IfOk result (λ reader. (text : List ℕ) → tree_left (so_far reader) text ≡ tree_of text) }
        ensures byte { IfOk result (λ reader. reader.rows.byte ≡ 0) }
    {
        Ok(TreeReader {
            rows: RowCutter::new(alloc),
            tree: Tree::empty(alloc)?,
        })
    }

    /// How many bytes it has read.
    pub fn byte(&self) -> u64
        ensures { result ≡ self.now.rows.byte }
    {
        self.rows.byte()
    }

    /// Reads what follows in the text.
    pub fn take(&mut self, alloc: Global, chunk: &[u8]) -> Result<(), TreeFault>
        requires { self.old.rows.byte + length chunk.now < 2 ^ 64 }
        // Whatever follows that.
        ensures read { OnOk result ((tail : List ℕ) → tree_left (so_far self.old) (chunk.now ++ tail) ≡ tree_left (so_far self.new) tail) }
        ensures byte { OnOk result (self.new.rows.byte ≡ self.old.rows.byte + length chunk.now) }
        ensures err { IfErr result (λ fault. (tail : List ℕ) → IsTreeFault fault (tree_left (so_far self.old) (chunk.now ++ tail))) }
    {
        let mut rest = chunk;
        while let Some(cut) = self.rows.advance(rest)? {
            add_item(alloc, &mut self.tree, cut.byte, self.rows.item())?;
            rest = cut.rest;
        }
        Ok(())
    }

    /// The tree, where the text ends.
    pub fn finish(self) -> Result<Tree, TreeFault>
        ensures ok { IfOk result (λ tree. tree_left (so_far self) [] ≡ Ok (dump tree.inodes.items tree.paths)) }
        ensures err { IfErr result (λ fault. IsTreeFault fault (tree_left (so_far self) [])) }
    {
        let TreeReader { rows, tree } = self;
        rows.finish()?;
        Ok(tree)
    }
}

// Adds the inode that the item is which begins at this byte.
fn add_item(alloc: Global, tree: &mut Tree, byte: u64, text: &[u8]) -> Result<(), TreeFault>
    ensures { MatchResult result
        (λ _. with_item (dump tree.old.inodes.items tree.old.paths) byte text.now ≡ Ok (dump tree.new.inodes.items tree.new.paths))
        (λ fault. IsTreeFault fault (with_item (dump tree.old.inodes.items tree.old.paths) byte text.now)) }
{
    let number = tree.inodes.len() + 1;
    let item = match read_json(alloc, text) {
        Ok(item) => item,
        Err(NoJson::At { line, column }) => {
            return Err(TreeFault::NotJson {
                number,
                byte,
                line,
                column,
            });
        }
        Err(NoJson::NoMemory) => return Err(TreeFault::NoMemory),
    };
    if add_inode(alloc, &mut tree.inodes, &mut tree.paths, &item)? {
        Ok(())
    } else {
        Err(TreeFault::BadItem { number, byte })
    }
}
