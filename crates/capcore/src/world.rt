//! What an event does: all of the core but its history.
ghost use Rattle.std.specs.Prelude.{List, ◌≡◌, ◌+◌, false, None, IfOk, OnOk, OnErr};
ghost use Rattle.std.specs.FinMap as map;
ghost use Rattle.capbits.specs.Refusal.{first_failing};
ghost use Rattle.inotree.specs.Calls.{with_new};
ghost use Rattle.inotree.specs.Tests.{create_tests};
ghost use Rattle.inotree.specs.Tree.{is_directory};
ghost use Rattle.captable.specs.Table.{IsTable, Table};
ghost use Rattle.sessiontab.specs.Calls.{with_session};
ghost use Rattle.sessiontab.specs.Tests.{new_session_tests};
ghost use Rattle.capcore.specs.Affected.{affected_by, is_listing, session_changed_by};
ghost use Rattle.capcore.specs.Replied.{IsReplied};
ghost use Rattle.capstep.specs.declared.outcome.Ended.{Ended as AnEnded};
ghost use Rattle.capstep.specs.Direct.{IsDirect, Says, direct, made_event, owned_by, with_birth, with_sessions};
ghost use Rattle.capstep.specs.History.{HasNoStray, IsOpening};
ghost use Rattle.capstep.specs.Noted.{view_of};
ghost use Rattle.capstep.specs.Sound.{NumbersLeft};
ghost use Rattle.capstep.specs.State.{State};
ghost use Rattle.policy_view.specs.Changes.{AreChanges};
ghost use Rattle.policy_view.specs.Visible.{Shows};
ghost use Rattle.lockmachine.specs.Locks.{IsLockMap, LockMap};
ghost use Rattle.lockmachine.specs.Scene.{scene};
ghost use Rattle.capstep.specs.declared.event.Event.TheVariants as event;
ghost use Rattle.capcore.specs.UnderWay.{event_of};

use crate::entry_request::EntryRequest;
use crate::judging::{access_rejection, basic_refusal, rejection};
use crate::output::StepOutput;
use crate::parts::{Applied, CoreState, LockEvent};
use crate::poll::{due_messages, give};
use crate::settle::end;
use crate::start::first_locks;
use crate::step_reply::StepReply;
use capbits::{Caller, ClientId, Ino, Mode, Refusal};
use capgrant::{Access, Attr};
use capspec::{FsName, Grants};
use capstep::due_endings::remove_given;
use capstep::judge::denial;
use capstep::{
    ChangeList, EndedList, EndedTickets, Event, OperationRef, Recorded, Reply, copy_of_messages,
};
use captable::{CapTable, Holder};
use inotree::{Kind, Tree};
use lockmachine::KeptScene;
use policy_view::ViewChange;
use sessiontab::Sessions;
use std::alloc::{AllocError, Global};
use std::marker::Model;

// The state that events change.
#[derive(Debug)]
pub(crate) struct World {
    pub(crate) parts: CoreState,
}

// Not derived: so the proof of a function that drops one has a single call there.
impl Drop for World {
    fn drop(self) {
        let World { parts: _parts } = self;
    }
}

impl Model for World {
    ghost use Rattle.capstep.specs.State.{State};
    ghost use Rattle.capcore.specs.Codes.{state_code};
    ghost use Rattle.capcore.specs.UnderWay.{IsWhole, state_of};

    ghost Value = { State };

    ghost coded = { state_code };

    ghost view = { λ w. state_of w.parts };

    ghost invariant = { λ w. IsWhole w.parts };
}

impl World {
    // Nobody is connected, nobody has an entry, and each lock is in SYNC.
    pub(crate) fn new(alloc: Global, fs: FsName, tree: Tree) -> Result<World, AllocError>
        requires strays { HasNoStray tree }
        ensures { IfOk result (λ world. IsOpening fs tree world) }
    {
        let locks = first_locks(alloc, &tree)?;
        let (Ok(sessions), Ok(table)) = (Sessions::new(alloc), CapTable::new(alloc)) else {
            return Err(AllocError);
        };
        let scene = KeptScene {
            fs,
            tree,
            sessions,
            table,
            locks,
        };
        let parts = CoreState {
            scene,
            messages: Vec::new(alloc),
        };
        Ok(World { parts })
    }

    // Makes one step.
    pub(crate) fn step(
        &mut self,
        event: &Event,
        output: &mut StepOutput,
    ) -> Result<StepReply, AllocError>
        requires numbers { NumbersLeft self.old }
        requires table { IsTable self.old.scene.table }
        requires locks { IsLockMap self.old.scene.locks }
        ensures replied { IfOk result (λ step_reply. IsReplied self.old event.now step_reply self.new) }
        ensures changes { OnOk result (AreChanges output.new.changes.items (view_of self.old) (view_of self.new)) }
        ensures err { OnErr result ((self.new ≡ self.old) × (output.new.changes.items ≡ output.old.changes.items)) }
    {
        let lock_event = match event {
            &Event::Open { client, ino, mode } => {
                LockEvent::OfEntry(Holder { client, ino }, EntryRequest::Open(mode))
            }
            &Event::Want { client, ino, caps } => {
                LockEvent::OfEntry(Holder { client, ino }, EntryRequest::Want(caps))
            }
            &Event::Ack { client, ino, seq } => {
                LockEvent::OfEntry(Holder { client, ino }, EntryRequest::Ack(seq))
            }
            &Event::Release { client, ino, caps } => {
                LockEvent::OfEntry(Holder { client, ino }, EntryRequest::Release(caps))
            }
            &Event::Get { client, ino, part } => {
                LockEvent::OfLock(Holder { client, ino }, OperationRef::Get(part))
            }
            &Event::Alter {
                client,
                ino,
                ref change,
            } => LockEvent::OfLock(Holder { client, ino }, OperationRef::Alter(change)),
            &Event::Unlink { client, ino } => {
                LockEvent::OfLock(Holder { client, ino }, OperationRef::Unlink)
            }
            &Event::Rmdir { client, ino } => {
                LockEvent::OfLock(Holder { client, ino }, OperationRef::Rmdir)
            }
            &Event::Rename {
                client,
                ino,
                dir,
                ref name,
            } => LockEvent::OfLock(Holder { client, ino }, OperationRef::Rename { dir, name }),
            &Event::Flush {
                client,
                ino,
                ref change,
            } => LockEvent::Flush(Holder { client, ino }, change),
            &Event::Poll { client, max } => return self.poll(client, max, output),
            &Event::Recall { count } => return self.recall(count, output),
            _ => match event.session_change() {
                Some((client, change)) => LockEvent::OfSession(client, change),
                None => return self.act_alone(event, output),
            },
        };
        self.move_locks(&lock_event, output)
    }

    // A step that leaves alone what entries and requests depend on: no lock moves, and all is done when the event is.
    fn act_alone(&mut self, event: &Event, output: &mut StepOutput) -> Result<StepReply, AllocError>
        requires affects { affected_by event.now ≡ None }
        requires lists { is_listing event.now ≡ false }
        requires changes_session { session_changed_by event.now ≡ None }
        requires table { IsTable self.old.scene.table }
        ensures replied { IfOk result (λ step_reply. IsReplied self.old event.now step_reply self.new) }
        ensures changes { OnOk result (AreChanges output.new.changes.items (view_of self.old) (view_of self.new)) }
        ensures err { OnErr result ((self.new ≡ self.old) × (output.new.changes.items ≡ output.old.changes.items)) }
    {
        // From the tree, whose contract tells the proof that it is one.
        let alloc = self.parts.scene.tree.alloc();
        let reply = self.act(event, &mut output.changes)?;
        Ok(StepReply::alone(alloc, reply))
    }

    // A step that may move locks: what rejects its event is answered. Else it has its effect, the locks settle of all that it affected,
    // and it ends there.
    fn move_locks(
        &mut self,
        lock_event: &LockEvent,
        output: &mut StepOutput,
    ) -> Result<StepReply, AllocError>
        requires numbers { NumbersLeft self.old }
        requires table { IsTable self.old.scene.table }
        requires locks { IsLockMap self.old.scene.locks }
        ensures replied { IfOk result (λ step_reply. IsReplied self.old (event_of lock_event.now) step_reply self.new) }
        ensures changes { OnOk result (AreChanges output.new.changes.items (view_of self.old) (view_of self.new)) }
        ensures err { OnErr result ((self.new ≡ self.old) × (output.new.changes.items ≡ output.old.changes.items)) }
    {
        if let Some(rejection) = rejection(&self.parts.scene, lock_event) {
            output.changes.clear();
            return Ok(StepReply::alone(*self.parts.messages.allocator(), rejection.into_reply()));
        }
        let Applied {
            affected,
            reply_due,
        } = self.parts.begin(lock_event, output)?;
        end(&mut self.parts.scene, affected, output);
        Ok(self.parts.close(reply_due, output))
    }

    // A step that gives a client the first messages that are due to it.
    fn poll(
        &mut self,
        client: ClientId,
        max: u32,
        output: &mut StepOutput,
    ) -> Result<StepReply, AllocError>
        requires table { IsTable self.old.scene.table }
        ensures replied { IfOk result (λ step_reply. IsReplied self.old (event.Poll client max) step_reply self.new) }
        ensures changes { OnOk result (AreChanges output.new.changes.items (view_of self.old) (view_of self.new)) }
        ensures err { OnErr result ((self.new ≡ self.old) × (output.new.changes.items ≡ output.old.changes.items)) }
    {
        if let Some(refusal) = self.parts.scene.sessions.session_refusal(client) {
            output.changes.clear();
            return Ok(StepReply::alone(*self.parts.messages.allocator(), Reply::Refused(refusal)));
        }
        // The list once for the client and once for the history, both before the client was told of anything.
        let alloc = *self.parts.messages.allocator();
        let ended = self.parts.messages.as_slice();
        let given = due_messages(alloc, ended, &self.parts.scene, client, max)?;
        let recorded = copy_of_messages(alloc, given.as_slice())?;
        let told = EndedTickets::of(alloc, given.as_slice())?;
        output.changes.clear();
        give(&mut self.parts.scene.table, client, given.as_slice());
        self.parts.scene.table.skip_not_due(client);
        remove_given(&mut self.parts.messages, client, &told);
        Ok(StepReply {
            reply: Recorded {
                given: Reply::Messages(given),
                recorded: Reply::Messages(recorded),
            },
            ended: EndedList::new(alloc),
        })
    }

    // The event by itself, which notes what it changes in the place of what the last step changed.
    fn act(&mut self, event: &Event, changes: &mut ChangeList) -> Result<Reply, AllocError>
        requires affects { affected_by event.now ≡ None }
        requires lists { is_listing event.now ≡ false }
        requires changes_session { session_changed_by event.now ≡ None }
        ensures direct { IfOk result (λ reply. IsDirect self.old event.now reply self.new) }
        ensures changes { OnOk result (AreChanges changes.new.items (view_of self.old) (view_of self.new)) }
        ensures err { OnErr result ((self.new ≡ self.old) × (changes.new.items ≡ changes.old.items)) }
    {
        match event {
            Event::Session {
                client,
                caller,
                grants,
            } => self.open_session(*client, caller, grants, changes),
            Event::Unblock { client } => {
                changes.clear();
                Ok(self.unblock(*client))
            }
            Event::Lookup { client, dir, name } => {
                changes.clear();
                let (fs, tree, sessions) = (
                    &self.parts.scene.fs,
                    &self.parts.scene.tree,
                    &self.parts.scene.sessions,
                );
                Ok(lookup(fs, tree, sessions, *client, *dir, name.as_slice()))
            }
            &Event::Create {
                client,
                dir,
                ref name,
                mode,
            } => {
                let holder = Holder { client, ino: dir };
                self.make(Kind::File, holder, name.as_slice(), mode, changes)
            }
            &Event::Mkdir {
                client,
                dir,
                ref name,
                mode,
            } => {
                let holder = Holder { client, ino: dir };
                self.make(Kind::Directory, holder, name.as_slice(), mode, changes)
            }
            Event::MakeSnapshot { client, ino, name } => {
                let reply = self.make_snapshot(*client, *ino, name.as_slice())?;
                changes.clear();
                Ok(reply)
            }
            Event::RemoveSnapshot { client, ino, name } => {
                changes.clear();
                Ok(self.remove_snapshot(*client, *ino, name.as_slice()))
            }
            Event::CloseSession { .. }
            | Event::Mark { .. }
            | Event::Regrant { .. }
            | Event::Evict { .. }
            | Event::Recall { .. }
            | Event::Open { .. }
            | Event::Want { .. }
            | Event::Ack { .. }
            | Event::Release { .. }
            | Event::Get { .. }
            | Event::Alter { .. }
            | Event::Unlink { .. }
            | Event::Rmdir { .. }
            | Event::Rename { .. }
            | Event::Flush { .. }
            | Event::Poll { .. } => unreachable!(),
        }
    }

    fn open_session(
        &mut self,
        client: ClientId,
        caller: &Caller,
        grants: &Grants,
        changes: &mut ChangeList,
    ) -> Result<Reply, AllocError>
        ensures direct { IfOk result (λ reply. IsDirect self.old (event.Session client caller.now grants.now) reply self.new) }
        ensures changes { OnOk result (AreChanges changes.new.items (view_of self.old) (view_of self.new)) }
        ensures err { OnErr result ((self.new ≡ self.old) × (changes.new.items ≡ changes.old.items)) }
    {
        if let Some(refusal) = self.parts.scene.sessions.open_refusal(client) {
            changes.clear();
            return Ok(Reply::Refused(refusal));
        }
        changes.begin(1)?;
        let opening = ViewChange::of_opening(client, caller, grants)?;
        if let Err(refused) = self.connect(client, caller, grants) {
            drop(opening);
            return Err(refused);
        }
        changes.start(Some(opening));
        Ok(Reply::Done)
    }

    // The client has an open session, with copies of these. For want of memory nothing changes.
    fn connect(
        &mut self,
        client: ClientId,
        caller: &Caller,
        grants: &Grants,
    ) -> Result<(), AllocError>
        requires passed { first_failing (new_session_tests self.old.scene.sessions client.0) ≡ None }
        ensures ok { OnOk result (self.new ≡ with_sessions self.old (with_session self.old.scene.sessions client.0 caller.now grants.now)) }
        ensures err { OnErr result (self.new ≡ self.old) }
    {
        let grants = grants.copy()?;
        self.parts
            .scene
            .sessions
            .open_session_tested(client, caller.copy(), grants)?;
        Ok(())
    }

    fn unblock(&mut self, client: ClientId) -> Reply
        ensures direct { IsDirect self.old (event.Unblock client) result self.new }
        ensures seen { Shows (view_of self.old) (view_of self.new) }
    {
        if let Some(refusal) = self.parts.scene.sessions.unblock_refusal(client) {
            return Reply::Refused(refusal);
        }
        self.parts.scene.sessions.unblock_tested(client);
        Reply::Done
    }

    // Makes a file or a directory in the directory that the client names, with its locks.
    fn make(
        &mut self,
        kind: Kind,
        holder: Holder,
        name: &[u8],
        mode: Mode,
        changes: &mut ChangeList,
    ) -> Result<Reply, AllocError>
        ensures direct { IfOk result (λ reply. IsDirect self.old (made_event kind holder.client holder.ino name.now mode) reply self.new) }
        ensures changes { OnOk result (AreChanges changes.new.items (view_of self.old) (view_of self.new)) }
        ensures err { OnErr result ((self.new ≡ self.old) × (changes.new.items ≡ changes.old.items)) }
    {
        if let Some(rejection) = access_rejection(&self.parts.scene, holder, Access::Write) {
            changes.clear();
            return Ok(rejection.into_reply());
        }
        if let Some(refusal) = self.parts.scene.tree.new_inode_refusal(holder.ino, name) {
            changes.clear();
            return Ok(Reply::Refused(refusal));
        }
        changes.begin(1)?;
        let attr = owned_by(&self.parts.scene.sessions, holder.client, mode);
        let ino = self.add(kind, holder.ino, name, attr)?;
        changes.clear();
        changes.note_birth(&self.parts.scene.tree, ino);
        Ok(Reply::Ino(ino))
    }

    // Adds an inode with its locks. For want of memory nothing changes.
    fn add(&mut self, kind: Kind, dir: Ino, name: &[u8], attr: Attr) -> Result<Ino, AllocError>
        requires passed { first_failing (create_tests self.old.scene.tree dir.0 name.now) ≡ None }
        ensures ok { OnOk result (self.new ≡ with_birth self.old kind dir.0 name.now attr) }
        ensures ino { IfOk result (λ ino. ino.0 ≡ self.old.scene.tree.last + 1) }
        ensures err { OnErr result (self.new ≡ self.old) }
    {
        // The locks first: they can be dropped again, but the number of an inode is never given again.
        let ino = Ino(self.parts.scene.tree.last().0 + 1);
        self.parts.scene.locks.add_ino(ino)?;
        match make_in(&mut self.parts.scene.tree, kind, dir, name, attr) {
            Ok(()) => Ok(ino),
            Err(AllocError) => {
                self.parts.scene.locks.drop_ino(ino);
                Err(AllocError)
            }
        }
    }

    fn make_snapshot(
        &mut self,
        client: ClientId,
        ino: Ino,
        name: &[u8],
    ) -> Result<Reply, AllocError>
        ensures direct { IfOk result (λ reply. IsDirect self.old (event.MakeSnapshot client ino name.now) reply self.new) }
        ensures seen { OnOk result (Shows (view_of self.old) (view_of self.new)) }
        ensures err { OnErr result (self.new ≡ self.old) }
    {
        let holder = Holder { client, ino };
        if let Some(rejection) = access_rejection(&self.parts.scene, holder, Access::Snapshot) {
            return Ok(rejection.into_reply());
        }
        if let Some(refusal) = self.parts.scene.tree.new_snapshot_refusal(ino, name) {
            return Ok(Reply::Refused(refusal));
        }
        self.parts.scene.tree.snap_add_tested(ino, name)?;
        Ok(Reply::Done)
    }

    fn remove_snapshot(&mut self, client: ClientId, ino: Ino, name: &[u8]) -> Reply
        ensures direct { IsDirect self.old (event.RemoveSnapshot client ino name.now) result self.new }
        ensures seen { Shows (view_of self.old) (view_of self.new) }
    {
        let holder = Holder { client, ino };
        if let Some(rejection) = access_rejection(&self.parts.scene, holder, Access::Snapshot) {
            return rejection.into_reply();
        }
        if let Some(refusal) = self.parts.scene.tree.old_snapshot_refusal(ino, name) {
            return Reply::Refused(refusal);
        }
        self.parts.scene.tree.snap_remove_tested(ino, name);
        Reply::Done
    }
}

// What a lookup answers.
fn lookup(
    fs: &FsName,
    tree: &Tree,
    sessions: &Sessions,
    client: ClientId,
    dir: Ino,
    name: &[u8],
) -> Reply
    ensures { (table : Table) (locks : LockMap) (messages : List AnEnded) →
        let s : State = record { scene = scene fs.now tree.now sessions.now table locks; messages = messages } in
        Says result ≡ (direct s (event.Lookup client dir name.now)).reply_due }
{
    if let Some(refusal) = basic_refusal(sessions, tree, Holder { client, ino: dir }) {
        return Reply::Refused(refusal);
    }
    if !is_directory(tree, dir) {
        return Reply::Refused(Refusal::NotDir);
    }
    let Some(ino) = tree.child(dir, name) else {
        return Reply::Refused(Refusal::NoEnt);
    };
    match denial(fs, tree, sessions, Holder { client, ino }, Access::Read) {
        Some(denied) => denied.into_reply(),
        None => Reply::Ino(ino),
    }
}

// Whether the inode is there, and a directory.
fn is_directory(tree: &Tree, ino: Ino) -> bool
    ensures { result ≡ is_directory tree.now.nodes ino.0 }
{
    match tree.node(ino) {
        Some(node) => matches!(node.kind, Kind::Directory),
        None => false,
    }
}

// The owner and the group of what a client makes are those of its user.
fn owned_by(sessions: &Sessions, client: ClientId, mode: Mode) -> Attr
    ensures { result ≡ owned_by (map.get sessions.now.sessions client.0) mode }
{
    match sessions.caller_of(client) {
        Some(caller) => Attr {
            uid: caller.uid,
            gid: caller.gid,
            mode,
        },
        None => Attr {
            uid: 0,
            gid: 0,
            mode,
        },
    }
}

// Makes an inode of this kind. For want of memory nothing changes.
fn make_in(tree: &mut Tree, kind: Kind, dir: Ino, name: &[u8], attr: Attr) -> Result<(), AllocError>
    requires passed { first_failing (create_tests tree.old dir.0 name.now) ≡ None }
    ensures ok { OnOk result (tree.new ≡ with_new tree.old kind dir.0 name.now attr) }
    ensures err { OnErr result (tree.new ≡ tree.old) }
{
    let made = match kind {
        Kind::File => tree.create_tested(dir, name, attr),
        Kind::Directory => tree.mkdir_tested(dir, name, attr),
    };
    match made {
        Ok(_ino) => Ok(()),
        Err(_no_memory) => Err(AllocError),
    }
}
