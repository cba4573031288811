//! Nodes in three lists: there is memory for one. Where each leads is said in `worked_cases`.
ghost use Rattle.std.specs.Prelude.{◌≡◌, ◌≤◌};

use crate::asserting::{made, same};
use cap_arena::{LinkWrites, TripleLists};
use capbits::{ClientId, Ino};
use std::alloc::Global;
use std::marker::Brand;
use std::process::Abort;
use std::sync::ledger::{Blank, Ledger};

fn adds<L: Ledger>(rt: &impl Abort, alloc: Global, blank: Blank)
    requires name { blank.name ≡ L.name }
    requires parts { blank.parts ≡ L.parts }
    requires counts { 1 ≤ L.parts }
{
    let mut lists = made(rt, TripleLists::new(alloc), "lists");
    let mut writes = LinkWrites::<L>::new(blank);
    let added = lists.add(ClientId(1), Ino(2), 0_u32, &mut writes);
    let key = made(rt, added, "a node");
    same(rt, lists.oldest(), Some(key), "a node");
}

#[test]
fn a_node_finds_memory(rt: HostRuntime) {
    adds::<Brand>(&rt, rt.alloc(), Blank::new(1));
}
