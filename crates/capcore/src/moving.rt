//! The pieces of a step that may move locks: its event by itself, the settling of locks with the end of the step, and what it says.
ghost use Rattle.std.specs.List.{find};
ghost use Rattle.std.specs.Prelude.{◌≡◌, ◌+◌, ◌≤◌, ◌++◌, List, length, IfOk, OnErr, vec_capacity};
ghost use Rattle.captable.specs.Known.{known_of};
ghost use Rattle.captable.specs.declared.entry.Holder.{Holder};
ghost use Rattle.capcore.specs.Begun.{ArePermittedIn};
ghost use Rattle.step_acts.specs.Known.{AreKnown};
ghost use Rattle.capstep.specs.declared.outcome.Ended.{Ended as AnEnded};
ghost use Rattle.capstep.specs.DueEndings.{HaveOwnNumbers, but_for, is_of_ticket};
ghost use Rattle.capstep.specs.Direct.{awaited_as, reply_of, shown};
ghost use Rattle.capstep.specs.Recorded.{twice};
ghost use Rattle.capstep.specs.State.{State};
ghost use Rattle.lockmachine.specs.Scene.{plain};
ghost use Rattle.capcore.specs.SessionChange.{session_changed};
ghost use Rattle.capstep.specs.Clients.{session_event};
ghost use Rattle.capstep.specs.declared.event.Event.TheVariants as event;
ghost use Rattle.capcore.specs.UnderWay.{HasBegun, HasPlaces, IsWhole, MayBegin, direct_reply_of, dropped_of, earlier_of, event_of, operation_event, state_of};

use crate::client::Room;
use crate::entry_request::{apply_request, show_reply};
use crate::output::StepOutput;
use crate::parts::{Applied, CoreState, LockEvent, ReplyDue};
use crate::settle::Affected;
use crate::step_reply::StepReply;
use capbits::{ClientId, Ticket};
use capstep::{Ended, EndedList, OperationRef, Recorded, Reply, copy_of_operation, copy_of_reply};
use captable::Holder;
use inotree::NonEmptyInoSet;
use lockmachine::{Change, KeptScene, Policy};
use sessiontab::SessionChange;
use std::alloc::AllocError;
use std::mem::swap;
use step_acts::renewing::{renew_changed, renew_client};
use step_acts::serving::alter;
use step_acts::session_end::drop_client_state;

impl CoreState {
    // ---- the event by itself. For want of memory nothing changes, and what the last step changed stays listed

    pub(crate) fn begin(
        &mut self,
        lock_event: &LockEvent,
        output: &mut StepOutput,
    ) -> Result<Applied, AllocError>
        requires may { MayBegin self.old (event_of lock_event.now) }
        ensures begun { IfOk result (λ applied. HasBegun self.old (event_of lock_event.now) applied self.new output.new) }
        ensures err { OnErr result (state_of self.new ≡ state_of self.old) }
        ensures whole { OnErr result (IsWhole self.new) }
        ensures changes { OnErr result (output.new.changes.items ≡ output.old.changes.items) }
    {
        match lock_event {
            // The request is applied to the entry.
            LockEvent::OfEntry(holder, request) => {
                let waiting = self.scene.locks.waiting();
                output.begin(waiting, waiting + 1)?;
                apply_request(&mut self.scene, *holder, request)?;
                output.changes.clear();
                Ok(Applied {
                    affected: Affected::Entry(*holder),
                    reply_due: ReplyDue::Requested(*holder, *request),
                })
            }
            LockEvent::OfLock(holder, operation) => self.lock_request(*holder, *operation, output),
            LockEvent::Flush(holder, change) => self.flush(*holder, *change, output),
            LockEvent::OfSession(client, change) => self.session_change(*client, *change, output),
        }
    }

    // The operation waits: it alone is copied, and the room for how it ends can't be lost.
    fn lock_request(
        &mut self,
        holder: Holder,
        operation: OperationRef,
        output: &mut StepOutput,
    ) -> Result<Applied, AllocError>
        requires may { MayBegin self.old (operation_event holder.client holder.ino operation) }
        ensures begun { IfOk result (λ applied. HasBegun self.old (operation_event holder.client holder.ino operation.entry) applied self.new output.new) }
        ensures err { OnErr result (state_of self.new ≡ state_of self.old) }
        ensures whole { OnErr result (IsWhole self.new) }
        ensures changes { OnErr result (output.new.changes.items ≡ output.old.changes.items) }
    {
        let waiting = self.scene.locks.waiting() + 1;
        output.begin(waiting, waiting + 1)?;
        let alloc = *self.messages.allocator();
        let copy = copy_of_operation(alloc, operation)?;
        if let Err(refused) = self.messages.reserve(waiting) {
            drop(copy);
            return Err(refused);
        }
        output.changes.clear();
        let locks = &mut self.scene.locks;
        let ticket = locks.enqueue_tested(holder.client, holder.ino, copy);
        output.judged = Some(ticket);
        Ok(Applied {
            affected: Affected::Inodes(NonEmptyInoSet::of(alloc, holder.ino)),
            reply_due: ReplyDue::Awaited(ticket),
        })
    }

    // The change is made, and waits for no lock.
    fn flush(
        &mut self,
        holder: Holder,
        change: &Change,
        output: &mut StepOutput,
    ) -> Result<Applied, AllocError>
        requires may { MayBegin self.old (event.Flush holder.client holder.ino change.now) }
        ensures begun { IfOk result (λ applied. HasBegun self.old (event.Flush holder.client holder.ino change.now) applied self.new output.new) }
        ensures err { OnErr result (state_of self.new ≡ state_of self.old) }
        ensures whole { OnErr result (IsWhole self.new) }
        ensures changes { OnErr result (output.new.changes.items ≡ output.old.changes.items) }
    {
        let waiting = self.scene.locks.waiting();
        output.begin(waiting, waiting + 2)?;
        let (tree, ino) = (&mut self.scene.tree, holder.ino);
        alter(tree, ino, change)?;
        output.changes.clear();
        output.changes.note_change(&self.scene.tree, ino, change);
        let policy = Policy {
            fs: &self.scene.fs,
            tree: &self.scene.tree,
            sessions: &self.scene.sessions,
        };
        renew_changed(&policy, &mut self.scene.table, ino, change);
        self.scene.table.touch(holder.client, ino);
        Ok(Applied {
            affected: Affected::Inodes(NonEmptyInoSet::of(output.alloc(), ino)),
            reply_due: ReplyDue::Done,
        })
    }

    // A client's session ends or changes. Where it ends, the client's requests are dropped, its entries go, and nobody is told what
    // it was still to be told of.
    fn session_change(
        &mut self,
        client: ClientId,
        change: SessionChange,
        output: &mut StepOutput,
    ) -> Result<Applied, AllocError>
        requires may { MayBegin self.old (session_event client change) }
        ensures begun { IfOk result (λ applied. HasBegun self.old (session_event client change.entry) applied self.new output.new) }
        ensures err { OnErr result (state_of self.new ≡ state_of self.old) }
        ensures whole { OnErr result (IsWhole self.new) }
        ensures changes { OnErr result (output.new.changes.items ≡ output.old.changes.items) }
    {
        let (alloc, table, locks) = (
            *self.messages.allocator(),
            &self.scene.table,
            &self.scene.locks,
        );
        let Room {
            inodes,
            mut dropped,
            note,
        } = Room::new(alloc, table, locks, client, change, output)?;
        self.scene.sessions.change_tested(client, change)?;
        output.changes.start(note);
        let (scene, messages) = (&mut self.scene, &mut self.messages);
        drop_client_state(scene, messages, client, change, &mut dropped);
        renew_granted(&mut self.scene, client, change);
        Ok(Applied {
            affected: Affected::Inodes(inodes),
            reply_due: ReplyDue::Dropped(dropped),
        })
    }

    // ---- the end of the step

    // What the step says: clients are to be told of the requests that it ended, and the history keeps them; of those that were
    // dropped, which come first there, nobody is told.
    pub(crate) fn close(&mut self, reply_due: ReplyDue, output: &mut StepOutput) -> StepReply
        requires differ { HaveOwnNumbers output.old.given.items }
        requires recorded { output.old.recorded.items ≡ output.old.given.items }
        requires room { length self.old.messages.items + length output.old.given.items ≤ vec_capacity self.old.messages }
        requires places { HasPlaces reply_due (length output.old.given.items) }
        requires known { AreKnown self.old.scene.table.kept (plain self.old.scene) }
        ensures reply { (ms : List AnEnded) → let last : State = record { scene = plain self.old.scene; messages = ms } in
            result.reply ≡ twice (reply_of last output.old.given.items (direct_reply_of reply_due)) }
        ensures shown { (ms : List AnEnded) → let last : State = record { scene = plain self.old.scene; messages = ms } in
            record { scene = plain self.new.scene; messages = ms } ≡ shown (direct_reply_of reply_due) last }
        ensures ended { result.ended ≡ dropped_of reply_due ++ earlier_of reply_due output.old.given.items }
        ensures changes { output.new.changes ≡ output.old.changes }
        ensures messages { self.new.messages.items ≡ self.old.messages.items ++ earlier_of reply_due output.old.given.items }
        ensures room { vec_capacity self.old.messages ≤ vec_capacity self.new.messages }
        ensures rest { self.new.scene ≡ record self.old.scene { table = record self.old.scene.table { entries = self.new.scene.table.entries } } }
    {
        let reply = match reply_due {
            ReplyDue::Done => Recorded {
                given: Reply::Done,
                recorded: Reply::Done,
            },
            ReplyDue::Dropped(mut dropped) => {
                let Ok(()) = dropped.append(&mut output.recorded) else {
                    unreachable!()
                };
                output.recorded = dropped;
                Recorded {
                    given: Reply::Done,
                    recorded: Reply::Done,
                }
            }
            ReplyDue::Requested(holder, request) => {
                let given = show_reply(&mut self.scene.table, holder, &request);
                let recorded = copy_of_reply(&given);
                Recorded { given, recorded }
            }
            ReplyDue::Awaited(ticket) => {
                let given = awaited(&mut output.given, ticket);
                let recorded = awaited(&mut output.recorded, ticket);
                Recorded { given, recorded }
            }
        };
        let mut ended = Vec::new(output.alloc());
        // Where none ended, the room stays.
        if !output.recorded.is_empty() {
            swap(&mut ended, &mut output.recorded);
            // The history keeps the list for good, but not the room for all who waited.
            ended.shrink_to_fit();
        }
        if !output.given.is_empty() {
            let Ok(()) = self.messages.append(&mut output.given) else {
                unreachable!()
            };
        }
        StepReply {
            reply,
            ended: EndedList::from(ended),
        }
    }
}

// What is answered to a request: how it ended, and then it is due no more; or that it waits.
fn awaited(due: &mut Vec<Ended>, ticket: Ticket) -> Reply
    requires differ { HaveOwnNumbers due.old.items }
    ensures reply { result ≡ awaited_as ticket (find (is_of_ticket ticket) due.old.items) }
    ensures left { due.new.items ≡ but_for ticket due.old.items }
{
    let mut all = due.iter();
    let Some(place) = all.position(|ended| ended.ticket.0 == ticket.0) else {
        return Reply::Waiting(ticket);
    };
    match due.remove(place).into_outcome().into_reply() {
        Some(reply) => reply,
        None => Reply::Waiting(ticket),
    }
}

// Where the client has other grants, what it is permitted is kept anew.
fn renew_granted(scene: &mut KeptScene, client: ClientId, change: SessionChange)
    ensures permitted { (old : State) → plain scene.old ≡ (session_changed old client change.entry).scene
        → ArePermittedIn scene.old.table.kept (record old.scene { table = scene.old.table.entries }) → ArePermittedIn scene.new.table.kept (plain scene.old) }
    ensures rest { scene.new ≡ record scene.old { table = record scene.old.table { kept = scene.new.table.kept } } }
    ensures pending { (k : Holder) → known_of scene.new.table.kept k ≡ known_of scene.old.table.kept k }
{
    // Policy reads no status; and where the session ended, no entry of the client is left.
    if let Some(_grants) = change.new_grants() {
        let policy = Policy {
            fs: &scene.fs,
            tree: &scene.tree,
            sessions: &scene.sessions,
        };
        renew_client(&policy, &mut scene.table, client);
    }
}
