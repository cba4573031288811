//! Small lists and sets give back what they are made of. What is in them is said in `worked_cases`.

use crate::asserting::{made, same};
use capbits::{Groups, Ino};
use capspec::{Gids, TreePath};
use inotree::NonEmptyInoSet;
use lockmachine::Bytes;

#[test]
fn numbers_are_given_back(rt: HostRuntime) {
    let mut groups = Groups::new();
    made(&rt, groups.try_push(4294967295), "a group");
    let seen = (groups.is_empty(), groups.iter().last().copied());
    same(&rt, seen, (false, Some(4294967295)), "a group");
    let gids = Gids::from(groups.into_inner()).into_inner();
    same(&rt, gids.as_slice(), &[4294967295], "gids");
}

#[test]
fn bytes_are_given_back(rt: HostRuntime) {
    let read = made(&rt, Bytes::read(rt.alloc(), b"\x00/\xff"), "bytes");
    let bytes = read.into_inner();
    same(&rt, bytes.as_slice(), b"\x00/\xff", "bytes");
    let path = made(&rt, TreePath::of(rt.alloc(), &[b"a", b"\xff"]), "names");
    same(&rt, path.as_bytes(), b"/a/\xff", "names");
}

#[test]
fn a_set_has_what_was_taken_in(rt: HostRuntime) {
    let mut set = NonEmptyInoSet::of(rt.alloc(), Ino(2));
    made(&rt, set.insert(Ino(4)), "an inode");
    same(&rt, set.contains(Ino(4)), true, "an inode");
    drop(set);
}
