//! Nodes, and the links that they stand in.
ghost use Rattle.std.specs.Prelude.{◌≡◌, ◌+◌};
ghost use Rattle.cap_arena.specs.Nodes.{joint_of, with_next, with_previous};

use crate::link::{Link, LinkWrites};
use capbits::{ClientId, Ino};
use std::fmt;
use std::sync::ledger::Ledger;

/// A client on an inode, with a value.
#[derive(Clone, Copy)]
pub struct Node<T> {
    pub client: ClientId,
    pub ino: Ino,
    /// What is kept of it.
    pub value: T,
}

// A list in which a node stands has one of these orders: those of an inode or of a client are in the order of making.
#[derive(Clone, Copy)]
pub(crate) enum Order {
    Inode,
    Client,
    Recall,
}

// A node's place in one list.
#[derive(Drop)]
pub(crate) struct Joint {
    pub(crate) next: Link,
    pub(crate) previous: Link,
}

// Where a list begins and where it ends.
#[derive(Drop)]
pub(crate) struct Ends {
    pub(crate) first: Link,
    pub(crate) last: Link,
}

// A node in its three lists.
#[derive(Drop)]
pub(crate) struct Linked<T> {
    pub(crate) node: Node<T>,
    pub(crate) of_ino: Joint,
    pub(crate) of_client: Joint,
    pub(crate) recall: Joint,
}

// The node, and the keys of those before it and behind it: in the list of its inode, in that of its client, and in the order of recall.
impl<T: fmt::Debug> fmt::Debug for Linked<T> {
    fn fmt<W: fmt::Write>(&self, f: &mut fmt::Formatter<W>) -> fmt::Result {
        let Node { client, ino, value } = &self.node;
        let of_both = (self.of_ino.keys(), self.of_client.keys());
        fmt::Debug::fmt(&(client, ino, value, of_both, self.recall.keys()), f)
    }
}

impl Joint {
    // The keys of the node before this one and of the one behind it.
    pub(crate) fn keys(&self) -> (Option<usize>, Option<usize>)
        ensures previous { result.0 ≡ self.now.previous }
        ensures next { result.1 ≡ self.now.next }
    {
        (self.previous.key(), self.next.key())
    }

    // Behind the last one of a list.
    pub(crate) fn behind<L: Ledger>(last: Option<usize>, writes: &mut LinkWrites<L>) -> Joint
        ensures joint { result ≡ record { next = None; previous = last } }
        ensures count { writes.new ≡ writes.old + 2 }
    {
        let next = Link::to(None, writes);
        let previous = Link::to(last, writes);
        Joint { next, previous }
    }
}

impl Ends {
    // Of a list without nodes.
    pub(crate) fn none<L: Ledger>(writes: &mut LinkWrites<L>) -> Ends
        ensures ends { result ≡ record { first = None; last = None } }
        ensures count { writes.new ≡ writes.old + 2 }
    {
        let first = Link::to(None, writes);
        let last = Link::to(None, writes);
        Ends { first, last }
    }

    // Of a list with one node.
    pub(crate) fn only<L: Ledger>(key: usize, writes: &mut LinkWrites<L>) -> Ends
        ensures ends { result ≡ record { first = Some key; last = Some key } }
        ensures count { writes.new ≡ writes.old + 2 }
    {
        let first = Link::to(Some(key), writes);
        let last = Link::to(Some(key), writes);
        Ends { first, last }
    }
}

impl<T> Linked<T> {
    // The node's place in a list of this order.
    pub(crate) fn joint(&self, order: Order) -> &Joint
        ensures { result.now ≡ joint_of order self.now }
    {
        match order {
            Order::Inode => &self.of_ino,
            Order::Client => &self.of_client,
            Order::Recall => &self.recall,
        }
    }

    // The next one in a list of this order is the node with this key.
    pub(crate) fn put_next<L: Ledger>(
        &mut self,
        order: Order,
        key: Option<usize>,
        writes: &mut LinkWrites<L>,
    )
        ensures linked { self.new ≡ with_next order key self.old }
        ensures count { writes.new ≡ writes.old + 1 }
    {
        match order {
            Order::Inode => self.of_ino.next.put(key, writes),
            Order::Client => self.of_client.next.put(key, writes),
            Order::Recall => self.recall.next.put(key, writes),
        }
    }

    // The one before it in a list of this order is the node with this key.
    pub(crate) fn put_previous<L: Ledger>(
        &mut self,
        order: Order,
        key: Option<usize>,
        writes: &mut LinkWrites<L>,
    )
        ensures linked { self.new ≡ with_previous order key self.old }
        ensures count { writes.new ≡ writes.old + 1 }
    {
        match order {
            Order::Inode => self.of_ino.previous.put(key, writes),
            Order::Client => self.of_client.previous.put(key, writes),
            Order::Recall => self.recall.previous.put(key, writes),
        }
    }
}
