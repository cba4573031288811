//! Steps by which a client's session ends, is marked or has other grants.
ghost use Rattle.std.specs.Prelude.{◌≡◌, ◌+◌, ◌≤◌, true, [], None, Contains, length, option_to_list, vec_capacity, IfOk, OnOk};
ghost use Rattle.std.specs.FinSet as set;
ghost use Rattle.captable.specs.Calls.{is_of_client};
ghost use Rattle.captable.specs.declared.entry.EntryRow.{EntryRow};
ghost use Rattle.lockmachine.specs.Requests.{is_of_client as is_asked_by};
ghost use Rattle.lockmachine.specs.declared.request.Request.{Request};
ghost use Rattle.step_acts.specs.AffectedInodes.{Widens};
ghost use Rattle.capcore.specs.Begun.{HaveRoomFor};
ghost use Rattle.capcore.specs.SessionChange.{HasInodesOf, Notes};

use crate::output::StepOutput;
use capbits::{ClientId, Ino};
use capstep::Ended;
use captable::CapTable;
use inotree::{NonEmptyInoSet, ROOT};
use lockmachine::Locks;
use policy_view::ViewChange;
use sessiontab::SessionChange;
use std::alloc::{AllocError, Global};

/// What the step takes, made before anything changes.
#[derive(Drop)]
pub struct Room {
    /// The root, and each inode that the client has an entry on or waits for.
    pub inodes: NonEmptyInoSet,
    /// An empty list for the requests that are dropped, of which nobody is told, with a place for each that waits.
    pub dropped: Vec<Ended>,
    /// What readers are told of the session, if anything.
    pub note: Option<ViewChange>,
}

impl Room {
    /// The root and all inodes where the client is, what is noted of its session, and room for each request that waits.
    pub fn new(
        alloc: Global,
        table: &CapTable,
        locks: &Locks,
        client: ClientId,
        change: SessionChange,
        output: &mut StepOutput,
    ) -> Result<Room, AllocError>
        ensures has_inodes { IfOk result (λ room. HasInodesOf client table.now.entries locks.now.locks room.inodes) }
        ensures room { OnOk result (HaveRoomFor (length locks.now.locks.queue) output.new) }
        ensures dropped { IfOk result (λ room. (room.dropped.items ≡ []) × (length locks.now.locks.queue ≤ vec_capacity room.dropped)) }
        ensures places { IfOk result (λ room. length locks.now.locks.queue + set.len room.inodes + 1 ≤ output.new.changes.room) }
        ensures note { IfOk result (λ room. Notes (option_to_list room.note) client change.entry) }
        ensures judged { OnOk result (output.new.judged ≡ None) }
        // What the last step changed stays listed.
        ensures changes { output.new.changes.items ≡ output.old.changes.items }
    {
        let inodes = inodes_of_client(alloc, table, locks, client)?;
        let waiting = locks.waiting();
        output.begin(waiting, waiting + inodes.len() + 1)?;
        let note = note_of(client, change)?;
        let dropped = Vec::with_capacity(alloc, waiting)?;
        Ok(Room {
            inodes,
            dropped,
            note,
        })
    }
}

// The root and all inodes where the client is: what settles is not empty, and the client may be at no inode; the root is always
// there.
fn inodes_of_client(
    alloc: Global,
    table: &CapTable,
    locks: &Locks,
    client: ClientId,
) -> Result<NonEmptyInoSet, AllocError>
    ensures { IfOk result (λ inodes. HasInodesOf client table.now.entries locks.now.locks inodes) }
{
    let mut inodes = NonEmptyInoSet::of(alloc, ROOT);
    include_entries(table, client, &mut inodes)?;
    include_requests(locks, client, &mut inodes)?;
    Ok(inodes)
}

// What readers are told of the session, if anything. Other grants are copied, which takes memory.
fn note_of(client: ClientId, change: SessionChange) -> Result<Option<ViewChange>, AllocError>
    ensures { IfOk result (λ note. Notes (option_to_list note) client change.entry) }
{
    if change.is_end() {
        return Ok(Some(ViewChange::Ended { client }));
    }
    match change.new_grants() {
        Some(grants) => Ok(Some(ViewChange::of_regrant(client, grants)?)),
        None => Ok(None),
    }
}

// Adds each inode that the client has an entry on.
fn include_entries(
    table: &CapTable,
    client: ClientId,
    inodes: &mut NonEmptyInoSet,
) -> Result<(), AllocError>
    ensures { OnOk result ((row : EntryRow) → Contains table.now.entries.rows row → is_of_client client row ≡ true
        → set.contains inodes.new row.holder.ino.0 ≡ true) }
{
    let mut walk = table.entries_of(client);
    'rows: while let Some(row) = walk.next() {
        inodes.insert(row.holder.ino)?;
    }
    Ok(())
}

// Adds each inode that the client waits for.
fn include_requests(
    locks: &Locks,
    client: ClientId,
    inodes: &mut NonEmptyInoSet,
) -> Result<(), AllocError>
    ensures widens { Widens inodes.old inodes.new }
    ensures has_inodes { OnOk result ((q : Request) → Contains locks.now.locks.queue q → is_asked_by client q ≡ true
        → set.contains inodes.new q.ino.0 ≡ true) }
{
    for request in locks.requests() {
        if request.client.0 == client.0 {
            add_inode(request.ino, inodes)?;
        }
    }
    Ok(())
}

// Adds the inode. By itself, so that what a set keeps is proved apart from the walk.
fn add_inode(ino: Ino, inodes: &mut NonEmptyInoSet) -> Result<(), AllocError>
    ensures widens { Widens inodes.old inodes.new }
    ensures has_inodes { OnOk result (set.contains inodes.new ino.0 ≡ true) }
{
    inodes.insert(ino)
}
