//! The nodes of the table: reads of one node, and changes of one, whose writes of links nobody counts.
ghost use Rattle.std.specs.Prelude.{◌≡◌, ◌≤◌, ℕ, true, false, None, IsSome, IfOk, IfSome, IfNone, OnErr, map, take};
ghost use Rattle.std.specs.Option.{option_map};
ghost use Rattle.capbits.specs.Refusal.{first_failing};
ghost use Rattle.cap_arena.specs.Lists.{IsLists, OfInode, OfRecall, belongs_at, keys, node_at};
ghost use Rattle.cap_arena.specs.Walks.{is_among};
ghost use Rattle.cap_arena.specs.Calls.{Adds, Removes, Touches, add_tests, node};
ghost use Rattle.captable.specs.Nodes as words;
ghost use Rattle.captable.specs.Nodes.{IsKeyOf, KeepsSets, SetsEntry, holder_of, nodes_in};
ghost use Rattle.captable.specs.Walks.{IsPlaceOf, keys_from};

use crate::entry::{ClientView, Entry, EntryRow, Holder, KeptEntry, Slot};
use cap_arena::{LinkWrites, Node, TripleLists};
use capbits::Ino;
use std::alloc::{AllocError, Global};
use std::sync::ledger::{Blank, Ledger};

// The row that the node stands for.
pub(crate) fn row_of(node: &Node<Slot>) -> EntryRow
    ensures { result ≡ words.row_of node.now }
{
    let (client, ino) = (node.client, node.ino);
    EntryRow {
        holder: Holder { client, ino },
        entry: node.value.entry,
    }
}

// The node's entry, with its holder and what is kept beside it.
pub(crate) fn kept_entry_of(node: &Node<Slot>) -> KeptEntry
    ensures { result ≡ words.kept_entry_of node.now }
{
    KeptEntry {
        row: row_of(node),
        sets: node.value.sets,
    }
}

// The holder whose node has this key.
pub(crate) fn holder_at(lists: &TripleLists<Slot>, key: usize) -> Option<Holder>
    ensures { result ≡ option_map holder_of (node_at lists.now key) }
{
    let node = lists.get(key)?;
    let (client, ino) = (node.client, node.ino);
    Some(Holder { client, ino })
}

// Whether the node of this key is on the inode.
fn is_on(lists: &TripleLists<Slot>, ino: Ino, key: usize) -> bool
    ensures on { result ≡ belongs_at lists.now (OfInode ino) key }
    ensures sound { IsLists lists.now }
{
    match lists.get(key) {
        Some(node) => node.ino.0 == ino.0,
        None => false,
    }
}

// Whether the node of this key is the holder's.
fn is_key_of(lists: &TripleLists<Slot>, holder: Holder, key: usize) -> bool
    ensures { result ≡ words.is_key_of lists.now holder key }
{
    match lists.get(key) {
        Some(node) => holder.client.0 == node.client.0 && holder.ino.0 == node.ino.0,
        None => false,
    }
}

// The key of the holder's node, if that comes from this place of the inode's list on.
fn key_from(lists: &TripleLists<Slot>, holder: Holder, from: Option<usize>) -> Option<usize>
    requires { IsPlaceOf lists.now (OfInode holder.ino) from }
    ensures found { IfSome result (λ key. IsKeyOf lists.now holder key) }
    ensures none { IfNone result ((key : ℕ) → is_among (keys_from (keys lists.now (OfInode holder.ino)) from) key ≡ true
        → words.is_key_of lists.now holder key ≡ false) }
{
    let mut place = from;
    'nodes: while let Some(key) = place {
        if is_key_of(lists, holder, key) {
            break;
        }
        place = lists.next_of_ino(key);
    }
    place
}

// The key of the holder's node. It is looked for along the list of the inode, which has no more nodes than there are
// clients: from the node with the key `near` on, if that is one of them, and then from the first.
pub(crate) fn key_of(lists: &TripleLists<Slot>, holder: Holder, near: usize) -> Option<usize>
    ensures found { IfSome result (λ key. IsKeyOf lists.now holder key) }
    ensures none { IfNone result ((key : ℕ) → words.is_key_of lists.now holder key ≡ false) }
{
    if is_on(lists, holder.ino, near) {
        if let Some(key) = key_from(lists, holder, Some(near)) {
            return Some(key);
        }
    }
    let first = lists.first_of_ino(holder.ino);
    key_from(lists, holder, first)
}

// The holders of the first `n` nodes in the order of recall, of all nodes if there are fewer.
pub(crate) fn first_holders(
    lists: &TripleLists<Slot>,
    alloc: Global,
    n: u32,
) -> Result<Vec<Holder>, AllocError>
    ensures { IfOk result (λ named. named.items ≡ take n (map holder_of (nodes_in lists.now OfRecall))) }
{
    let mut named = Vec::new(alloc);
    let mut next = lists.oldest();
    'named: while let Some(key) = next {
        if named.len() == n as usize {
            break;
        }
        let Some(holder) = holder_at(lists, key) else {
            unreachable!()
        };
        named.push(holder)?;
        next = lists.newer(key);
    }
    Ok(named)
}

// Gives the node this entry in place of its own, where the key has one.
pub(crate) fn set_entry(lists: &mut TripleLists<Slot>, key: usize, entry: Entry)
    ensures there { IsSome (node_at lists.old key) → SetsEntry lists.old lists.new key entry }
    ensures sound { IsLists lists.new }
{
    if let Some(node) = lists.get(key) {
        let value = Slot {
            entry,
            ..node.value
        };
        lists.set(key, value);
    }
}

// Keeps these sets beside the entry of the node, where the key has one.
pub(crate) fn keep_sets(lists: &mut TripleLists<Slot>, key: usize, sets: ClientView)
    ensures there { IsSome (node_at lists.old key) → KeepsSets lists.old lists.new key sets }
    ensures sound { IsLists lists.new }
{
    if let Some(node) = lists.get(key) {
        let value = Slot { sets, ..node.value };
        lists.set(key, value);
    }
}

// Adds a node for the holder, and answers its key. For want of memory nothing changes.
pub(crate) fn add_node<L: Ledger>(
    lists: &mut TripleLists<Slot>,
    holder: Holder,
    slot: Slot,
    blank: Blank,
) -> Result<usize, AllocError>
    requires passed { first_failing (add_tests lists.old) ≡ None }
    requires name { blank.name ≡ L.name }
    requires parts { blank.parts ≡ L.parts }
    requires counts { 1 ≤ L.parts }
    ensures ok { IfOk result (λ key. Adds lists.old lists.new key (node holder.client holder.ino slot)) }
    ensures err { OnErr result (lists.new ≡ lists.old) }
    ensures sound { IsLists lists.new }
{
    let mut writes = LinkWrites::<L>::new(blank);
    lists.add_tested(holder.client, holder.ino, slot, &mut writes)
}

// The node becomes the last one in the order of recall.
pub(crate) fn touch_node<L: Ledger>(lists: &mut TripleLists<Slot>, key: usize, blank: Blank)
    requires there { IsSome (node_at lists.old key) }
    requires name { blank.name ≡ L.name }
    requires parts { blank.parts ≡ L.parts }
    requires counts { 1 ≤ L.parts }
    ensures touched { Touches lists.old lists.new key }
    ensures sound { IsLists lists.new }
{
    let mut writes = LinkWrites::<L>::new(blank);
    lists.touch(key, &mut writes);
}

// Takes the node out of its lists.
pub(crate) fn remove_node<L: Ledger>(lists: &mut TripleLists<Slot>, key: usize, blank: Blank)
    requires there { IsSome (node_at lists.old key) }
    requires name { blank.name ≡ L.name }
    requires parts { blank.parts ≡ L.parts }
    requires counts { 1 ≤ L.parts }
    ensures removed { Removes lists.old lists.new key }
    ensures sound { IsLists lists.new }
{
    let mut writes = LinkWrites::<L>::new(blank);
    let _node = lists.remove(key, &mut writes);
}
