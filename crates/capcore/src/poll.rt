//! The messages that a client is given when it asks for them.
ghost use Rattle.std.specs.Prelude.{◌≡◌, ◌≤◌, ◌-◌, ◌++◌, [], ◌∷◌, true, nat_lt, length, take, if◌then◌else◌, IfOk, OnOk};
ghost use Rattle.captable.specs.Calls.{is_due, is_of_client};
ghost use Rattle.captable.specs.Many.{changed_where};
ghost use Rattle.captable.specs.Table.{IsTable};
ghost use Rattle.capstep.specs.Messages.{after_messages, caps_messages, end_messages, first_messages, row_messages, size_messages};
ghost use Rattle.capstep.specs.State.{State};
ghost use Rattle.step_acts.specs.Known.{AreKnown, known_in};
ghost use Rattle.lockmachine.specs.Scene.{Scene, pending_of};

use crate::entry_request::pending_for;
use capbits::ClientId;
use capstep::{Ended, Message, MessageList, copy_of_outcome};
use captable::{CapTable, EntryRow};
use inotree::Tree;
use lockmachine::KeptScene;
use std::alloc::{AllocError, Global};

// For how many messages there is room at once, some 90 kB.
const ROOM: usize = 1024;

/// The first messages that are due to a client, at most so many, where these requests have ended.
pub fn due_messages(
    alloc: Global,
    ended: &[Ended],
    scene: &KeptScene,
    client: ClientId,
    max: u32,
) -> Result<MessageList, AllocError>
    ensures { IfOk result (λ due. (s : State) → s.scene.tree ≡ scene.now.tree → s.scene.table ≡ scene.now.table.entries → AreKnown scene.now.table.kept s.scene
        → s.messages ≡ ended.now
        → due ≡ first_messages s client max) }
{
    let mut due = ended_messages(alloc, ended, client, max)?;
    let mut left = scene.table.due_count(client);
    if left == 0 {
        return Ok(due);
    }
    let mut walk = scene.table.due_of(client);
    'rows: while let Some(row) = walk.next() {
        add_due(&mut due, max, scene, &row)?;
        left = left_behind(left, &row);
        // Behind the last that is due the walk would come to nothing.
        if left == 0 {
            return Ok(due);
        }
        if due.as_slice().len() >= max as usize {
            return Ok(due);
        }
    }
    Ok(due)
}

// How many entries that are due come behind this one, where so many come from it on.
fn left_behind(left: usize, row: &EntryRow) -> usize
    ensures { result ≡ (if is_due row.now then left - 1 else left) }
{
    if row.entry.is_due() {
        left.saturating_sub(1)
    } else {
        left
    }
}

// The first messages of a client's requests that ended, at most so many.
fn ended_messages(
    alloc: Global,
    ended: &[Ended],
    client: ClientId,
    max: u32,
) -> Result<MessageList, AllocError>
    ensures { IfOk result (λ list. list ≡ take max (end_messages client ended.now)) }
{
    let mut list = MessageList::new(alloc);
    for one in ended {
        if one.client == client && list.as_slice().len() < max as usize {
            // Room for many that may come, so that the list is not copied while it grows.
            if list.as_slice().is_empty() {
                list.reserve(ended.len().min(max as usize).min(ROOM))?;
            }
            let outcome = copy_of_outcome(alloc, &one.outcome)?;
            let ticket = one.ticket;
            list.push(Message::Ended { ticket, outcome })?;
        }
    }
    Ok(list)
}

// Adds the messages that are due to the client of an entry, until `max` are listed.
fn add_due(
    list: &mut MessageList,
    max: u32,
    scene: &KeptScene,
    row: &EntryRow,
) -> Result<(), AllocError>
    requires room { length list.old ≤ max }
    ensures ok { OnOk result ((s : Scene) → s.tree ≡ scene.now.tree
        → (nat_lt row.now.entry.told_seq row.now.entry.seq ≡ true → known_in scene.now.table.kept row.now.holder ≡ pending_of s row.now)
        → list.new ≡ take max (list.old ++ row_messages s row.now)) }
{
    let ino = row.holder.ino;
    add_caps(list, max, &scene.table, row)?;
    add_size(list, max, &scene.tree, row)?;
    if row.entry.asked {
        add(list, max, Message::Recall { ino })?;
    }
    Ok(())
}

// Adds the change that the client was not told of.
fn add_caps(
    list: &mut MessageList,
    max: u32,
    table: &CapTable,
    row: &EntryRow,
) -> Result<(), AllocError>
    requires room { length list.old ≤ max }
    ensures ok { OnOk result ((s : Scene)
        → (nat_lt row.now.entry.told_seq row.now.entry.seq ≡ true → known_in table.now.kept row.now.holder ≡ pending_of s row.now)
        → list.new ≡ take max (list.old ++ caps_messages s row.now)) }
    ensures few { OnOk result (length list.new ≤ max) }
{
    let ino = row.holder.ino;
    if row.entry.told_seq < row.entry.seq {
        let seq = row.entry.seq;
        let caps = pending_for(table, row.holder);
        add(list, max, Message::Caps { ino, seq, caps })?;
    }
    Ok(())
}

// Adds the size that the client is to be told.
fn add_size(list: &mut MessageList, max: u32, tree: &Tree, row: &EntryRow) -> Result<(), AllocError>
    requires room { length list.old ≤ max }
    ensures ok { OnOk result ((s : Scene) → s.tree ≡ tree.now → list.new ≡ take max (list.old ++ size_messages s row.now)) }
    ensures few { OnOk result (length list.new ≤ max) }
{
    if !row.entry.size_due {
        return Ok(());
    }
    let ino = row.holder.ino;
    if let Some(node) = tree.node(ino) {
        let size = node.size;
        add(list, max, Message::Size { ino, size })?;
    }
    Ok(())
}

// Adds a message, if fewer than `max` are listed.
fn add(list: &mut MessageList, max: u32, message: Message) -> Result<(), AllocError>
    requires room { length list.old ≤ max }
    ensures ok { OnOk result (list.new ≡ take max (list.old ++ message ∷ [])) }
{
    if list.as_slice().len() < max as usize {
        list.push(message)?;
    }
    Ok(())
}

/// The client is told of the changes and the sizes that these messages say, and is no longer asked to release where one asks it.
pub fn give(table: &mut CapTable, client: ClientId, given: &[Message])
    requires { IsTable table.old.entries }
    ensures { table.new ≡ record table.old { entries = changed_where (is_of_client client) (after_messages given.now) table.old.entries } }
{
    for message in given {
        give_one(table, client, message);
    }
}

// The client is told what one message says.
fn give_one(table: &mut CapTable, client: ClientId, message: &Message)
    requires { IsTable table.old.entries }
    ensures { table.new ≡ record table.old { entries = changed_where (is_of_client client) (after_messages (message.now ∷ [])) table.old.entries } }
{
    match message {
        Message::Caps { ino, .. } => {
            let _entry = table.tell(client, *ino);
        }
        Message::Size { ino, .. } => table.tell_size(client, *ino),
        Message::Recall { ino } => table.ask(client, *ino, false),
        Message::Ended { .. } => {}
    }
}
