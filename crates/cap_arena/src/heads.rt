//! Where the lists of all inodes, or those of all clients, begin and end: by the number of the inode or the client. A list
//! without nodes has no entry, but while its first node is added.
ghost use Rattle.std.specs.Prelude.{◌≡◌, ◌==◌, ℕ, ◌+◌, ◌≤◌, Some, None, IsSome, OnOk, OnErr, if◌then◌else◌};
ghost use Rattle.std.specs.FinMap as map;
ghost use Rattle.cap_arena.specs.Heads.{ends_at, kept, no_ends, with_room, without_room};
ghost use Rattle.cap_arena.specs.Lists.{KeepsNoEmpty};
ghost use Rattle.cap_arena.specs.Places.{appended_ends, unlinked, unlinked_ends, with_next_at};

use crate::chain::{append, unlink};
use crate::link::LinkWrites;
use crate::nodes::{Ends, Linked, Order};
use capbits::Numbered;
use slab::Slab;
use std::alloc::AllocError;
use std::marker::Model;
use std::sync::ledger::Ledger;

// The ends of a list. Their links are made with its first node: before, there is room for them alone.
#[derive(Drop)]
pub(crate) struct Head {
    ends: Option<Ends>,
}

// Where each list begins and ends.
#[derive(Drop)]
pub(crate) struct AllEnds {
    pub(crate) recall: Ends,
    // By the inode's number.
    pub(crate) inodes: Numbered<Head>,
    // By the client's number.
    pub(crate) clients: Numbered<Head>,
}

impl Model for Head {
    ghost use Rattle.cap_arena.specs.declared.nodes.Ends.{Ends};
    ghost use Rattle.cap_arena.specs.Codes.{head_code};
    ghost use Rattle.cap_arena.specs.Heads.{ends_or_none};

    ghost Value = { Ends };

    ghost coded = { head_code };

    ghost view = { λ h. ends_or_none h.ends };
}

impl Head {
    // Of a list without nodes.
    fn empty() -> Head
        ensures { result ≡ no_ends }
    {
        Head { ends: None }
    }

    // The first node of the list.
    fn first(&self) -> Option<usize>
        ensures { result ≡ self.now.first }
    {
        match &self.ends {
            Some(ends) => ends.first.key(),
            None => None,
        }
    }

    // The last node of the list.
    fn last(&self) -> Option<usize>
        ensures { result ≡ self.now.last }
    {
        match &self.ends {
            Some(ends) => ends.last.key(),
            None => None,
        }
    }

    // The node is the last one of the list from now on. Its own links have led so already.
    fn append<T, L: Ledger>(
        &mut self,
        nodes: &mut Slab<Linked<T>>,
        order: Order,
        key: usize,
        writes: &mut LinkWrites<L>,
    )
        ensures nodes { nodes.new ≡ record nodes.old { slots = with_next_at nodes.old.slots order self.old.last (Some key) } }
        ensures ends { self.new ≡ appended_ends self.old key }
        ensures count { writes.new ≤ writes.old + 2 }
    {
        match &mut self.ends {
            Some(ends) => append(nodes, ends, order, key, writes),
            None => self.ends = Some(Ends::only(key, writes)),
        }
    }

    // The node is none of the list any more, which has nodes.
    fn unlink<T, L: Ledger>(
        &mut self,
        nodes: &mut Slab<Linked<T>>,
        order: Order,
        key: usize,
        writes: &mut LinkWrites<L>,
    )
        requires { IsSome self.old.first }
        ensures nodes { nodes.new ≡ record nodes.old { slots = unlinked nodes.old.slots self.old order key } }
        ensures ends { self.new ≡ unlinked_ends nodes.old.slots self.old order key }
        ensures count { writes.new ≤ writes.old + 2 }
    {
        let Some(ends) = &mut self.ends else {
            unreachable!()
        };
        unlink(nodes, ends, order, key, writes);
    }
}

// The first node of a list.
pub(crate) fn first_in(heads: &Numbered<Head>, number: u64) -> Option<usize>
    ensures { result ≡ (ends_at heads.now number).first }
{
    match heads.get(number) {
        Some(head) => head.first(),
        None => None,
    }
}

// The last node of a list.
pub(crate) fn last_in(heads: &Numbered<Head>, number: u64) -> Option<usize>
    ensures { result ≡ (ends_at heads.now number).last }
{
    match heads.get(number) {
        Some(head) => head.last(),
        None => None,
    }
}

// Makes room for the ends of a list. For want of memory nothing changes.
fn make_room(heads: &mut Numbered<Head>, number: u64) -> Result<(), AllocError>
    ensures ok { OnOk result (heads.new ≡ with_room heads.old number) }
    ensures err { OnErr result (heads.new ≡ heads.old) }
{
    heads.add(number, Head::empty())?;
    Ok(())
}

// Gives the room for the ends of a list back, if it has no nodes.
fn drop_room(heads: &mut Numbered<Head>, number: u64)
    ensures { heads.new ≡ without_room heads.old number }
{
    if first_in(heads, number).is_none() {
        heads.remove(number);
    }
}

// Makes room for the ends of an inode's list and of a client's. For want of memory nothing changes.
pub(crate) fn make_rooms(
    inodes: &mut Numbered<Head>,
    ino: u64,
    clients: &mut Numbered<Head>,
    client: u64,
) -> Result<(), AllocError>
    requires { KeepsNoEmpty inodes.old }
    ensures ok { OnOk result ((inodes.new ≡ with_room inodes.old ino) × (clients.new ≡ with_room clients.old client)) }
    ensures err { OnErr result ((inodes.new ≡ inodes.old) × (clients.new ≡ clients.old)) }
{
    make_room(inodes, ino)?;
    if let Err(refused) = make_room(clients, client) {
        drop_room(inodes, ino);
        return Err(refused);
    }
    Ok(())
}

// The node is the last one of the list from now on. Its own links have led so already, and there is room for the ends.
pub(crate) fn append_in<T, L: Ledger>(
    heads: &mut Numbered<Head>,
    number: u64,
    nodes: &mut Slab<Linked<T>>,
    order: Order,
    key: usize,
    writes: &mut LinkWrites<L>,
)
    requires { IsSome (map.get heads.old number) }
    ensures nodes { nodes.new ≡ record nodes.old { slots = with_next_at nodes.old.slots order (ends_at heads.old number).last (Some key) } }
    ensures heads { (q : ℕ) → map.get heads.new q ≡ (if number == q then Some (appended_ends (ends_at heads.old number) key) else map.get heads.old q) }
    ensures count { writes.new ≤ writes.old + 2 }
{
    let Some(head) = heads.get_mut(number) else {
        unreachable!()
    };
    head.append(nodes, order, key, writes);
}

// The node is none of the list any more, which has nodes.
pub(crate) fn unlink_in<T, L: Ledger>(
    heads: &mut Numbered<Head>,
    number: u64,
    nodes: &mut Slab<Linked<T>>,
    order: Order,
    key: usize,
    writes: &mut LinkWrites<L>,
)
    requires { IsSome (ends_at heads.old number).first }
    ensures nodes { nodes.new ≡ record nodes.old { slots = unlinked nodes.old.slots (ends_at heads.old number) order key } }
    ensures heads { (q : ℕ) → map.get heads.new q ≡ (if number == q then kept (unlinked_ends nodes.old.slots (ends_at heads.old number) order key) else map.get heads.old q) }
    ensures count { writes.new ≤ writes.old + 2 }
{
    let Some(head) = heads.get_mut(number) else {
        unreachable!()
    };
    head.unlink(nodes, order, key, writes);
    if head.first().is_none() {
        heads.remove(number);
    }
}
