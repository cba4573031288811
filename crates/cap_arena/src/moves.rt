//! A node that is taken into all its lists, or out of them, or has another value.
ghost use Rattle.std.specs.Prelude.{◌≡◌, ◌+◌, ◌<◌, ◌≤◌, Some, IfOk, OnErr};
ghost use Rattle.slab.specs.Slab.{HasRoomFor};
ghost use Rattle.cap_arena.specs.Nodes.{with_node_value};
ghost use Rattle.cap_arena.specs.Places.{changed_in, linked_at};
ghost use Rattle.cap_arena.specs.Lists.{IsLists, count, lists_of, node_at};
ghost use Rattle.cap_arena.specs.Calls.{Adds, Removes};

use crate::chain::{append, unlink};
use crate::heads::{AllEnds, append_in, last_in, make_rooms, unlink_in};
use crate::link::LinkWrites;
use crate::nodes::{Joint, Linked, Node, Order};
use slab::Slab;
use std::alloc::AllocError;
use std::sync::ledger::Ledger;

// Takes a node, for which there is room, into its three lists, the last one of each, and answers its key. For want of memory for the
// ends of its lists nothing changes.
pub(crate) fn take_in<T: Copy, L: Ledger>(
    nodes: &mut Slab<Linked<T>>,
    ends: &mut AllEnds,
    node: Node<T>,
    writes: &mut LinkWrites<L>,
) -> Result<usize, AllocError>
    requires sound { IsLists (lists_of nodes.old.slots ends.old.recall ends.old.inodes ends.old.clients) }
    requires below { count (lists_of nodes.old.slots ends.old.recall ends.old.inodes ends.old.clients) < 65536 }
    requires slot { HasRoomFor nodes.old 1 }
    ensures added { IfOk result (λ key. IsLists (lists_of nodes.new.slots ends.new.recall ends.new.inodes ends.new.clients) × Adds (lists_of nodes.old.slots ends.old.recall ends.old.inodes ends.old.clients) (lists_of nodes.new.slots ends.new.recall ends.new.inodes ends.new.clients) key node) }
    ensures err { OnErr result (lists_of nodes.new.slots ends.new.recall ends.new.inodes ends.new.clients ≡ lists_of nodes.old.slots ends.old.recall ends.old.inodes ends.old.clients) }
    ensures unwritten { OnErr result (writes.new ≡ writes.old) }
    ensures count { writes.new ≤ writes.old + 12 }
{
    let (ino, client) = (node.ino.0, node.client.0 as u64);
    make_rooms(&mut ends.inodes, ino, &mut ends.clients, client)?;
    let linked = Linked {
        node,
        of_ino: Joint::behind(last_in(&ends.inodes, ino), writes),
        of_client: Joint::behind(last_in(&ends.clients, client), writes),
        recall: Joint::behind(ends.recall.last.key(), writes),
    };
    let key = nodes.insert_reserved(linked);
    append_in(&mut ends.inodes, ino, nodes, Order::Inode, key, writes);
    append_in(&mut ends.clients, client, nodes, Order::Client, key, writes);
    append(nodes, &mut ends.recall, Order::Recall, key, writes);
    Ok(key)
}

// Takes the node out of its three lists. Its key may be given again from then on.
pub(crate) fn take_out<T: Copy, L: Ledger>(
    nodes: &mut Slab<Linked<T>>,
    ends: &mut AllEnds,
    key: usize,
    node: Node<T>,
    writes: &mut LinkWrites<L>,
)
    requires sound { IsLists (lists_of nodes.old.slots ends.old.recall ends.old.inodes ends.old.clients) }
    requires there { node_at (lists_of nodes.old.slots ends.old.recall ends.old.inodes ends.old.clients) key ≡ Some node }
    ensures removed { IsLists (lists_of nodes.new.slots ends.new.recall ends.new.inodes ends.new.clients) × Removes (lists_of nodes.old.slots ends.old.recall ends.old.inodes ends.old.clients) (lists_of nodes.new.slots ends.new.recall ends.new.inodes ends.new.clients) key }
    ensures count { writes.new ≤ writes.old + 12 }
{
    let (ino, client) = (node.ino.0, node.client.0 as u64);
    unlink_in(&mut ends.inodes, ino, nodes, Order::Inode, key, writes);
    unlink_in(&mut ends.clients, client, nodes, Order::Client, key, writes);
    unlink(nodes, &mut ends.recall, Order::Recall, key, writes);
    let _linked = nodes.try_remove(key);
}

// Keeps this value with the node. Where no node has the key, nothing happens.
pub(crate) fn put_value<T: Copy>(nodes: &mut Slab<Linked<T>>, key: usize, value: T)
    ensures { nodes.new ≡ record nodes.old { slots = changed_in (with_node_value value) nodes.old.slots key (linked_at nodes.old.slots key) } }
{
    if let Some(linked) = nodes.get_mut(key) {
        linked.node.value = value;
    }
}
