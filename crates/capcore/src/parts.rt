//! The parts of the core that a step changes, the events that may move locks, and what such an event leaves.

use crate::entry_request::EntryRequest;
use crate::settle::Affected;
use capbits::{ClientId, Ticket};
use capstep::{Ended, OperationRef};
use captable::Holder;
use lockmachine::{Change, KeptScene};
use sessiontab::SessionChange;

// Tree, sessions, entries and locks, with what is kept beside entries and locks, and what clients are still to be told.
#[derive(Debug)]
pub(crate) struct CoreState {
    pub(crate) scene: KeptScene,
    // The requests that ended and that no client was told of.
    pub(crate) messages: Vec<Ended>,
}

// Not derived: so the proof of a function that drops one has a single call there.
impl Drop for CoreState {
    fn drop(self) {
        let CoreState {
            scene: _,
            messages: _,
        } = self;
    }
}

// An event that may move locks, borrowed.
#[derive(Clone, Copy)]
pub(crate) enum LockEvent<'a> {
    OfEntry(Holder, EntryRequest),
    OfLock(Holder, OperationRef<'a>),
    // The holder, which alone may change a part, has changed it.
    Flush(Holder, &'a Change),
    OfSession(ClientId, SessionChange<'a>),
}

// What the event left by itself, before any lock moves.
#[derive(Drop)]
pub(crate) struct Applied {
    pub(crate) affected: Affected,
    pub(crate) reply_due: ReplyDue,
}

// Which reply is due at the end of the step.
#[derive(Drop)]
pub(crate) enum ReplyDue {
    Done,
    // That the event is done, where these requests were dropped.
    Dropped(Vec<Ended>),
    // The reply to this request on the holder's entry.
    Requested(Holder, EntryRequest),
    // How the request with this number ended, if it did.
    Awaited(Ticket),
}
