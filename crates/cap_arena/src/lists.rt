//! Nodes in three lists.
ghost use Rattle.std.specs.Prelude.{◌≡◌, ◌+◌, ◌≤◌, Some, None, IsSome, IfOk, OnErr, IfSome, IfNone, slice_get, option_and_then};

use crate::chain::{move_last, next_of};
use crate::heads::{AllEnds, first_in};
use crate::link::LinkWrites;
use crate::moves::{put_value, take_in, take_out};
use crate::nodes::{Ends, Linked, Node, Order};
use capbits::{ChangeError, ClientId, Ino, Numbered, Refusal};
use slab::Slab;
use std::alloc::{AllocError, Global};
use std::fmt;
use std::marker::{Brand, Model};
use std::sync::ledger::{Blank, Ledger};

/// How many nodes there may be.
pub const MAX_NODES: usize = 65_536;

/// Nodes, at most `MAX_NODES`, each under a key that is its own until it is removed. Each stands at once in three lists:
/// that of its inode and that of its client, both in the order of making, and the order of recall, in which the node
/// that was left alone longest is the oldest, and comes first.
pub struct TripleLists<T> {
    nodes: Slab<Linked<T>>,
    ends: AllEnds,
}

// Not derived: so the proof of a function that drops one has a single call there.
impl<T: Drop> Drop for TripleLists<T> {
    fn drop(self) {
        let TripleLists { nodes: _, ends: _ } = self;
    }
}

// The nodes by their keys, each with those beside it: where lists begin and end is told by them.
impl<T: fmt::Debug> fmt::Debug for TripleLists<T> {
    fn fmt<W: fmt::Write>(&self, f: &mut fmt::Formatter<W>) -> fmt::Result {
        fmt::Debug::fmt(&self.nodes, f)
    }
}

impl<T> Model for TripleLists<T> {
    ghost use Rattle.cap_arena.specs.Lists.{Lists};

    ghost Value = { Lists T };

    ghost use Rattle.std.specs.Coded.{codes};
    ghost use Rattle.cap_arena.specs.Codes.{ends_code};
    ghost use Rattle.cap_arena.specs.contracts.nodes.Linked as linked;
    ghost use Rattle.cap_arena.specs.contracts.nodes.Ends as list_ends;

    ghost coded = { Prim.hlevel (codes, ends_code, list_ends.the_row.coded, T.code) };

    ghost use Rattle.cap_arena.specs.Lists.{IsLists, lists_of};

    ghost view = { λ t. lists_of t.nodes.slots t.ends.recall t.ends.inodes t.ends.clients };

    ghost invariant = { λ t. IsLists (lists_of t.nodes.slots t.ends.recall t.ends.inodes t.ends.clients) };
}

// A list without nodes. Its links are the first writes to them, and nobody counts these.
fn no_ends<L: Ledger>(blank: Blank) -> Ends
    requires name { blank.name ≡ L.name }
    requires parts { blank.parts ≡ L.parts }
    requires counts { 1 ≤ L.parts }
    ensures { result ≡ record { first = None; last = None } }
{
    let mut writes = LinkWrites::<L>::new(blank);
    Ends::none(&mut writes)
}

impl<T: Copy> TripleLists<T> {
    ghost use Rattle.capbits.specs.Refusal.{first_failing, refusal_in};
    ghost use Rattle.cap_arena.specs.Walks.{key_after};
    ghost use Rattle.cap_arena.specs.Lists.{IsLists, OfClient, OfInode, OfRecall, count, empty, keys, node_at};
    ghost use Rattle.cap_arena.specs.Calls.{Adds, Removes, Sets, Touches, add_tests, node};

    /// No nodes.
    pub fn new(alloc: Global) -> Result<TripleLists<T>, AllocError>
        ensures { IfOk result (λ lists. lists ≡ empty) }
    {
        Ok(TripleLists {
            nodes: Slab::new(alloc),
            ends: AllEnds {
                recall: no_ends::<Brand>(Blank::new(1)),
                inodes: Numbered::new(alloc),
                clients: Numbered::new(alloc),
            },
        })
    }

    /// Why no node can be added: there are as many as there may be.
    pub fn add_refusal(&self) -> Option<Refusal>
        ensures tests { result ≡ first_failing (add_tests self.now) }
        ensures sound { IsLists self.now }
    {
        if self.nodes.len() >= MAX_NODES {
            return Some(Refusal::Limit);
        }
        None
    }

    /// Adds a node, the last one of each of its lists, and answers its key. It is refused as Limit.
    pub fn add<L: Ledger>(
        &mut self,
        client: ClientId,
        ino: Ino,
        value: T,
        writes: &mut LinkWrites<L>,
    ) -> Result<usize, ChangeError>
        ensures refused { refusal_in result ≡ first_failing (add_tests self.old) }
        ensures ok { IfOk result (λ key. Adds self.old self.new key (node client ino value)) }
        ensures err { OnErr result (self.new ≡ self.old) }
        ensures unwritten { OnErr result (writes.new ≡ writes.old) }
        ensures count { writes.new ≤ writes.old + 12 }
        ensures sound { IsLists self.new }
    {
        if let Some(refusal) = self.add_refusal() {
            return Err(ChangeError::Refused(refusal));
        }
        let key = self.add_tested(client, ino, value, writes)?;
        Ok(key)
    }

    /// Adds a node, the last one of each of its lists, and answers its key, where there are fewer nodes than there may be. For want of
    /// memory nothing changes.
    pub fn add_tested<L: Ledger>(
        &mut self,
        client: ClientId,
        ino: Ino,
        value: T,
        writes: &mut LinkWrites<L>,
    ) -> Result<usize, AllocError>
        requires passed { first_failing (add_tests self.old) ≡ None }
        ensures ok { IfOk result (λ key. Adds self.old self.new key (node client ino value)) }
        ensures err { OnErr result (self.new ≡ self.old) }
        ensures unwritten { OnErr result (writes.new ≡ writes.old) }
        ensures count { writes.new ≤ writes.old + 12 }
        ensures sound { IsLists self.new }
    {
        self.nodes.reserve(1)?;
        let node = Node { client, ino, value };
        take_in(&mut self.nodes, &mut self.ends, node, writes)
    }

    /// The node with this key.
    pub fn get(&self, key: usize) -> Option<Node<T>>
        ensures node { result ≡ node_at self.now key }
        ensures sound { IsLists self.now }
    {
        match self.nodes.get(key) {
            Some(linked) => Some(linked.node),
            None => None,
        }
    }

    /// Keeps this value with the node from now on. Where no node has the key, nothing happens.
    pub fn set(&mut self, key: usize, value: T)
        ensures changed { Sets self.old self.new key value }
        ensures sound { IsLists self.new }
    {
        put_value(&mut self.nodes, key, value);
    }

    /// The first node of the inode.
    pub fn first_of_ino(&self, ino: Ino) -> Option<usize>
        ensures first { result ≡ slice_get (keys self.now (OfInode ino)) 0 }
        ensures sound { IsLists self.now }
    {
        first_in(&self.ends.inodes, ino.0)
    }

    /// The node after this one in the list of its inode.
    pub fn next_of_ino(&self, key: usize) -> Option<usize>
        ensures next { result ≡ option_and_then (λ node. key_after (keys self.now (OfInode node.ino)) key) (node_at self.now key) }
        ensures sound { IsLists self.now }
    {
        next_of(&self.nodes, Order::Inode, key)
    }

    /// The first node of the client.
    pub fn first_of_client(&self, client: ClientId) -> Option<usize>
        ensures first { result ≡ slice_get (keys self.now (OfClient client)) 0 }
        ensures sound { IsLists self.now }
    {
        first_in(&self.ends.clients, client.0 as u64)
    }

    /// The node after this one in the list of its client.
    pub fn next_of_client(&self, key: usize) -> Option<usize>
        ensures next { result ≡ option_and_then (λ node. key_after (keys self.now (OfClient node.client)) key) (node_at self.now key) }
        ensures sound { IsLists self.now }
    {
        next_of(&self.nodes, Order::Client, key)
    }

    /// The first node in the order of recall.
    pub fn oldest(&self) -> Option<usize>
        ensures first { result ≡ slice_get (keys self.now OfRecall) 0 }
        ensures sound { IsLists self.now }
    {
        self.ends.recall.first.key()
    }

    /// The node after this one in the order of recall.
    pub fn newer(&self, key: usize) -> Option<usize>
        ensures next { result ≡ key_after (keys self.now OfRecall) key }
        ensures sound { IsLists self.now }
    {
        next_of(&self.nodes, Order::Recall, key)
    }

    /// The node becomes the last one in the order of recall. Where no node has the key, nothing happens.
    pub fn touch<L: Ledger>(&mut self, key: usize, writes: &mut LinkWrites<L>)
        ensures there { IsSome (node_at self.old key) → Touches self.old self.new key }
        ensures absent { node_at self.old key ≡ None → self.new ≡ self.old }
        ensures count { writes.new ≤ writes.old + 12 }
        ensures sound { IsLists self.new }
    {
        if !self.nodes.contains(key) {
            return;
        }
        move_last(&mut self.nodes, &mut self.ends.recall, key, writes);
    }

    /// Takes the node out of each of its lists, and answers it. Where no node has the key, nothing happens.
    pub fn remove<L: Ledger>(&mut self, key: usize, writes: &mut LinkWrites<L>) -> Option<Node<T>>
        ensures node { result ≡ node_at self.old key }
        ensures removed { IfSome result (λ _. Removes self.old self.new key) }
        ensures absent { IfNone result (self.new ≡ self.old) }
        ensures count { writes.new ≤ writes.old + 12 }
        ensures sound { IsLists self.new }
    {
        let node = self.get(key)?;
        take_out(&mut self.nodes, &mut self.ends, key, node, writes);
        Some(node)
    }
}
