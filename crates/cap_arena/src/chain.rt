//! The links of one list, of whichever order. A place in a list is a node, by its key, or none: the beginning of the
//! list, which is its end too.
ghost use Rattle.std.specs.Prelude.{◌≡◌, ◌+◌, ◌≤◌, Some, None};
ghost use Rattle.cap_arena.specs.Places.{appended_ends, facing_last, moved_ends, moved_slots, next_key, previous_key, unlinked, unlinked_ends, with_first_at};
ghost use Rattle.cap_arena.specs.Places.{with_last_at, with_next_at, with_previous_at};

use crate::link::LinkWrites;
use crate::nodes::{Ends, Linked, Order};
use slab::Slab;
use std::sync::ledger::Ledger;

// The node after this one.
pub(crate) fn next_of<T>(nodes: &Slab<Linked<T>>, order: Order, key: usize) -> Option<usize>
    ensures { result ≡ next_key nodes.now.slots order key }
{
    match nodes.get(key) {
        Some(linked) => linked.joint(order).next.key(),
        None => None,
    }
}

// The node before this one, and the one after it.
fn beside<T>(nodes: &Slab<Linked<T>>, order: Order, key: usize) -> (Option<usize>, Option<usize>)
    ensures previous { result.0 ≡ previous_key nodes.now.slots order key }
    ensures next { result.1 ≡ next_key nodes.now.slots order key }
{
    match nodes.get(key) {
        Some(linked) => linked.joint(order).keys(),
        None => (None, None),
    }
}

// `to` comes next after the place.
fn put_next<T, L: Ledger>(
    nodes: &mut Slab<Linked<T>>,
    ends: &mut Ends,
    order: Order,
    place: Option<usize>,
    to: Option<usize>,
    writes: &mut LinkWrites<L>,
)
    ensures nodes { nodes.new ≡ record nodes.old { slots = with_next_at nodes.old.slots order place to } }
    ensures ends { ends.new ≡ with_first_at ends.old place to }
    ensures count { writes.new ≤ writes.old + 1 }
{
    let Some(key) = place else {
        ends.first.put(to, writes);
        return;
    };
    if let Some(linked) = nodes.get_mut(key) {
        linked.put_next(order, to, writes);
    }
}

// `to` comes before the place.
fn put_previous<T, L: Ledger>(
    nodes: &mut Slab<Linked<T>>,
    ends: &mut Ends,
    order: Order,
    place: Option<usize>,
    to: Option<usize>,
    writes: &mut LinkWrites<L>,
)
    ensures nodes { nodes.new ≡ record nodes.old { slots = with_previous_at nodes.old.slots order place to } }
    ensures ends { ends.new ≡ with_last_at ends.old place to }
    ensures count { writes.new ≤ writes.old + 1 }
{
    let Some(key) = place else {
        ends.last.put(to, writes);
        return;
    };
    if let Some(linked) = nodes.get_mut(key) {
        linked.put_previous(order, to, writes);
    }
}

// The node is the last one of the list from now on. Its own links have led so already.
pub(crate) fn append<T, L: Ledger>(
    nodes: &mut Slab<Linked<T>>,
    ends: &mut Ends,
    order: Order,
    key: usize,
    writes: &mut LinkWrites<L>,
)
    ensures nodes { nodes.new ≡ record nodes.old { slots = with_next_at nodes.old.slots order ends.old.last (Some key) } }
    ensures ends { ends.new ≡ appended_ends ends.old key }
    ensures count { writes.new ≤ writes.old + 2 }
{
    let last = ends.last.key();
    put_next(nodes, ends, order, last, Some(key), writes);
    put_previous(nodes, ends, order, None, Some(key), writes);
}

// The node is none of the list any more: the places on both sides of it lead to each other.
pub(crate) fn unlink<T, L: Ledger>(
    nodes: &mut Slab<Linked<T>>,
    ends: &mut Ends,
    order: Order,
    key: usize,
    writes: &mut LinkWrites<L>,
)
    ensures nodes { nodes.new ≡ record nodes.old { slots = unlinked nodes.old.slots ends.old order key } }
    ensures ends { ends.new ≡ unlinked_ends nodes.old.slots ends.old order key }
    ensures count { writes.new ≤ writes.old + 2 }
{
    let (previous, next) = beside(nodes, order, key);
    put_next(nodes, ends, order, previous, next, writes);
    put_previous(nodes, ends, order, next, previous, writes);
}

// The node stands behind the last one of the list, which does not lead to it yet.
fn face_last<T, L: Ledger>(
    nodes: &mut Slab<Linked<T>>,
    ends: &Ends,
    order: Order,
    key: usize,
    writes: &mut LinkWrites<L>,
)
    ensures nodes { nodes.new ≡ record nodes.old { slots = facing_last nodes.old.slots ends.now order key } }
    ensures count { writes.new ≤ writes.old + 2 }
{
    if let Some(linked) = nodes.get_mut(key) {
        linked.put_next(order, None, writes);
        linked.put_previous(order, ends.last.key(), writes);
    }
}

// Moves the node to the end of the order of recall.
pub(crate) fn move_last<T, L: Ledger>(
    nodes: &mut Slab<Linked<T>>,
    recall: &mut Ends,
    key: usize,
    writes: &mut LinkWrites<L>,
)
    ensures nodes { nodes.new ≡ record nodes.old { slots = moved_slots nodes.old.slots recall.old key } }
    ensures ends { recall.new ≡ moved_ends nodes.old.slots recall.old key }
    ensures count { writes.new ≤ writes.old + 6 }
{
    unlink(nodes, recall, Order::Recall, key, writes);
    face_last(nodes, recall, Order::Recall, key, writes);
    append(nodes, recall, Order::Recall, key, writes);
}
