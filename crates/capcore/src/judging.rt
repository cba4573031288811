//! What rejects an event: its tests and policy, over the parts of the state that they look at.
ghost use Rattle.std.specs.Prelude.{◌≡◌, ◌++◌, ◌∷◌, []};
ghost use Rattle.capbits.specs.Refusal.{first_failing};
ghost use Rattle.inotree.specs.Tests.{exists_test, inode_tests};
ghost use Rattle.sessiontab.specs.Tests.{connected_test, session_tests};
ghost use Rattle.step_acts.specs.Known.{AreKnown};
ghost use Rattle.capstep.specs.Judge.{basic_tests, before, judged, rejection_of};
ghost use Rattle.capstep.specs.Needs.{need};
ghost use Rattle.lockmachine.specs.Scene.{plain};
ghost use Rattle.capcore.specs.EntryRequest.{entry_event};
ghost use Rattle.capstep.specs.declared.event.Event.TheVariants as event;
ghost use Rattle.capcore.specs.UnderWay.{event_of};

use crate::entry_request::{EntryRequest, revoked_of};
use crate::parts::LockEvent;
use capbits::{Cap, CapSet, Part, Refusal};
use capgrant::Access;
use capstep::judge::{change_access, change_refusal, denial, operation_rejection};
use capstep::{OpenMode, Rejection};
use captable::Holder;
use inotree::Tree;
use lockmachine::{Change, KeptScene};
use sessiontab::Sessions;

// What rejects an event.
pub(crate) fn rejection(scene: &KeptScene, lock_event: &LockEvent) -> Option<Rejection>
    ensures { AreKnown scene.now.table.kept (plain scene.now) → result ≡ judged (plain scene.now) (event_of lock_event.now) }
{
    match lock_event {
        LockEvent::OfEntry(holder, EntryRequest::Open(mode)) => open_rejection(
            scene, *holder, *mode,
        ),
        LockEvent::OfEntry(holder, request) => {
            Some(Rejection::ByTest(entry_refusal(scene, *holder, request)?))
        }
        // Its session and the room in the queue are tested besides; else it is judged as when it is served.
        LockEvent::OfLock(holder, operation) => {
            if let Some(refusal) = scene.sessions.session_refusal(holder.client) {
                return Some(Rejection::ByTest(refusal));
            }
            if let Some(rejection) = operation_rejection(scene, *holder, *operation) {
                return Some(rejection);
            }
            let refusal = scene.locks.enqueue_refusal()?;
            Some(Rejection::ByTest(refusal))
        }
        LockEvent::Flush(holder, change) => flush_rejection(scene, *holder, *change),
        LockEvent::OfSession(client, change) => {
            let refusal = scene.sessions.change_refusal(*client, *change)?;
            Some(Rejection::ByTest(refusal))
        }
    }
}

// ---- the tests before policy

// The first test of the client's session and of the inode that fails.
pub(crate) fn basic_refusal(sessions: &Sessions, tree: &Tree, holder: Holder) -> Option<Refusal>
    ensures { result ≡ first_failing (session_tests sessions.now holder.client.0 ++ inode_tests tree.now holder.ino.0) }
{
    let Holder { client, ino } = holder;
    match sessions.session_refusal(client) {
        Some(refusal) => Some(refusal),
        None => tree.inode_refusal(ino),
    }
}

// The first test of the client, which may be stale, and of the inode, which may be a stray, that fails.
fn connected_refusal(sessions: &Sessions, tree: &Tree, holder: Holder) -> Option<Refusal>
    ensures { result ≡ first_failing (connected_test sessions.now holder.client.0 ∷ exists_test tree.now holder.ino.0 ∷ []) }
{
    match sessions.connected_refusal(holder.client) {
        Some(refusal) => Some(refusal),
        None => tree.exists_refusal(holder.ino),
    }
}

// ---- one access

// What rejects a request that needs one access to an inode that it names, apart from the tests behind policy.
pub(crate) fn access_rejection(
    scene: &KeptScene,
    holder: Holder,
    access: Access,
) -> Option<Rejection>
    ensures { result ≡ rejection_of (plain scene.now) (basic_tests (plain scene.now) holder.client holder.ino.0) (need holder.client holder.ino.0 access ∷ []) [] }
{
    let (tree, sessions) = (&scene.tree, &scene.sessions);
    match basic_refusal(sessions, tree, holder) {
        Some(refusal) => Some(Rejection::ByTest(refusal)),
        None => denial(&scene.fs, tree, sessions, holder, access),
    }
}

// ---- requests on an entry

// What rejects an opening.
fn open_rejection(scene: &KeptScene, holder: Holder, mode: OpenMode) -> Option<Rejection>
    ensures { result ≡ judged (plain scene.now) (event.Open holder.client holder.ino mode) }
{
    let (fs, tree, sessions) = (&scene.fs, &scene.tree, &scene.sessions);
    if let Some(refusal) = basic_refusal(sessions, tree, holder) {
        return Some(Rejection::ByTest(refusal));
    }
    if let OpenMode::Read | OpenMode::ReadWrite = mode {
        if let Some(denied) = denial(fs, tree, sessions, holder, Access::Read) {
            return Some(denied);
        }
    }
    if let OpenMode::Write | OpenMode::ReadWrite = mode {
        if let Some(denied) = denial(fs, tree, sessions, holder, Access::Write) {
            return Some(denied);
        }
        if let Some(refusal) = tree.file_refusal(holder.ino) {
            return Some(Rejection::ByTest(refusal));
        }
    }
    // Looked at first, since where there is room nobody needs to search for the entry.
    let refusal = scene.table.open_refusal()?;
    match scene.table.find(holder.client, holder.ino) {
        Some(_entry) => None,
        None => Some(Rejection::ByTest(refusal)),
    }
}

// The first test before policy that fails; an opening has more behind it.
fn entry_refusal(scene: &KeptScene, holder: Holder, request: &EntryRequest) -> Option<Refusal>
    ensures { let s = plain scene.now in
        AreKnown scene.now.table.kept s → result ≡ first_failing (before s (entry_event holder.client holder.ino request.now)) }
{
    let Holder { client, ino } = holder;
    let (tree, sessions, table) = (&scene.tree, &scene.sessions, &scene.table);
    match request {
        EntryRequest::Open(_) => basic_refusal(sessions, tree, holder),
        EntryRequest::Want(_) => match basic_refusal(sessions, tree, holder) {
            Some(refusal) => Some(refusal),
            None => table.entry_refusal(client, ino),
        },
        EntryRequest::Ack(seq) => match connected_refusal(sessions, tree, holder) {
            Some(refusal) => Some(refusal),
            None => table.ack_refusal(client, ino, *seq, revoked_of(table, holder)),
        },
        EntryRequest::Release(caps) => match connected_refusal(sessions, tree, holder) {
            Some(refusal) => Some(refusal),
            None => table.release_refusal(client, ino, *caps),
        },
    }
}

// ---- a flush

// What rejects a flush: its client has to hold the cap by which it alone changes the part.
fn flush_rejection(scene: &KeptScene, holder: Holder, change: &Change) -> Option<Rejection>
    ensures { result ≡ judged (plain scene.now) (event.Flush holder.client holder.ino change.now) }
{
    if let Some(rejection) = access_rejection(scene, holder, change_access(change)) {
        return Some(rejection);
    }
    let exclusive = match change.part() {
        Part::A => Cap::Ax,
        Part::L => Cap::Lx,
        Part::X => Cap::Xx,
        Part::F => Cap::Fx,
    };
    let held = CapSet::of(&[exclusive]);
    if let Some(refusal) = scene.table.release_refusal(holder.client, holder.ino, held) {
        return Some(Rejection::ByTest(refusal));
    }
    let refusal = change_refusal(scene, holder.ino, change)?;
    Some(Rejection::ByTest(refusal))
}
