//! Calls of a tree that no program makes: there is memory for each. What they change and are refused as is said in `worked_cases`.

use crate::asserting::{made, present, same};
use crate::values::attr_of;
use capbits::{Ino, Refusal};
use inotree::{Setting, Tree};
use std::process::Abort;

// The owner, the group and the mode of each inode.
const ATTR: &str = "1 1 0755";

// Makes a directory, and a file in it.
fn grow(rt: &impl Abort, tree: &mut Tree) {
    let directory = tree.mkdir(Ino(1), b"d", attr_of(rt, ATTR));
    made(rt, directory, "a directory");
    let file = tree.create(Ino(2), b"f", attr_of(rt, ATTR));
    made(rt, file, "a file");
}

// Sets what the file and the directory keep, and takes it away.
fn keeps(rt: &impl Abort, tree: &mut Tree) {
    made(rt, tree.set(Ino(3), Setting::Size(5)), "a size");
    made(rt, tree.set_xattr(Ino(3), b"user.a", b"1"), "a value");
    made(rt, tree.remove_xattr(Ino(3), b"user.a"), "no value");
    made(rt, tree.snap_add(Ino(2), b"s"), "a snapshot");
    made(rt, tree.snap_remove(Ino(2), b"s"), "no snapshot");
}

// Moves the file up, and unlinks it.
fn moves_and_unlinks(rt: &impl Abort, tree: &mut Tree) {
    let fault = tree.rename_fault(Ino(3), Ino(2), b"f");
    same(rt, fault, Some(Refusal::Exists), "where it is");
    made(rt, tree.rename(Ino(3), Ino(1), b"g"), "another place");
    let path = present(rt, tree.path_of(Ino(3)), "a path");
    same(rt, tree.resolve(path.as_slice()), Some(Ino(3)), "its names");
    made(rt, tree.unlink(Ino(3)), "a stray");
}

#[test]
fn a_tree_finds_memory(rt: HostRuntime) {
    let mut tree = made(&rt, Tree::new(rt.alloc(), attr_of(&rt, ATTR)), "a tree");
    grow(&rt, &mut tree);
    keeps(&rt, &mut tree);
    moves_and_unlinks(&rt, &mut tree);
    drop(tree);
}
