//! The requests of a client on one entry, and what they change of it.
ghost use Rattle.std.specs.Prelude.{◌≡◌, ◌<◌, ◌^◌, ◌-◌, true, false, [], None, Some, if◌then◌else◌, OnOk, OnErr};
ghost use Rattle.capbits.specs.Caps.{has};
ghost use Rattle.capbits.specs.Refusal.{first_failing};
ghost use Rattle.capbits.specs.Sets.{minus, no_caps};
ghost use Rattle.capbits.specs.declared.cap.Cap.TheVariants.{P};
ghost use Rattle.captable.specs.Calls.{changed, without};
ghost use Rattle.captable.specs.declared.entry.Entry.{Entry};
ghost use Rattle.capstep.specs.Direct.{reply_of, shown, with_table};
ghost use Rattle.capstep.specs.Judge.{revoked_of};
ghost use Rattle.capstep.specs.State.{State};
ghost use Rattle.step_acts.specs.Known.{AreKnown, StillKept, known_in};
ghost use Rattle.lockmachine.specs.Counts.{AreCounted};
ghost use Rattle.lockmachine.specs.Scene.{Scene, plain};
ghost use Rattle.capstep.specs.Direct as effects;
ghost use Rattle.capcore.specs.Begun.{AreCountedIn};
ghost use Rattle.capcore.specs.EntryRequest as words;

use capbits::{Cap, CapSet};
use capstep::{OpenMode, Reply};
use captable::{CapTable, EntryRow, Holder};
use lockmachine::{KeptScene, Locks};
use std::alloc::AllocError;
use step_acts::opening::find_or_open;

/// A request of a client on its entry on an inode.
#[derive(Clone, Copy)]
pub enum EntryRequest {
    /// The client opens the inode.
    Open(OpenMode),
    /// It wants these, and the pin.
    Want(CapSet),
    /// It acknowledges the message with this number.
    Ack(u64),
    /// It releases these.
    Release(CapSet),
}

/// What is being revoked of the holder's entry, where it has one: what it holds and its client is not to know of.
pub fn revoked_of(table: &CapTable, holder: Holder) -> CapSet
    ensures { (s : Scene) → s.table ≡ table.now.entries → AreKnown table.now.kept s → result ≡ revoked_of s holder }
{
    match table.find(holder.client, holder.ino) {
        Some(entry) => entry.held.minus(pending_for(table, holder)),
        None => CapSet::empty(),
    }
}

/// What the holder's client is to know of, as it is kept beside its entry; nothing where it has none.
pub(crate) fn pending_for(table: &CapTable, holder: Holder) -> CapSet
    ensures { result ≡ known_in table.now.kept holder }
{
    match table.kept(holder.client, holder.ino) {
        Some(kept) => kept.pending,
        None => CapSet::empty(),
    }
}

/// Applies the request to the holder's entry. An opening alone takes memory: for want of it nothing changes.
pub fn apply_request(
    scene: &mut KeptScene,
    holder: Holder,
    request: &EntryRequest,
) -> Result<(), AllocError>
    requires made { scene.old.table.entries.made < 2 ^ 64 - 1 }
    requires known { AreKnown scene.old.table.kept (plain scene.old) }
    requires passed { first_failing (words.entry_request_tests (plain scene.old) holder request.now) ≡ None }
    ensures ok { OnOk result (plain scene.new ≡ record (plain scene.old) { table = words.table_after (plain scene.old) holder request.now }) }
    ensures err { OnErr result (scene.new ≡ scene.old) }
    ensures kept { StillKept (plain scene.old) scene.new.table.entries scene.old.table.kept scene.new.table.kept }
    ensures counted { AreCountedIn scene.old → AreCountedIn scene.new }
{
    let (client, ino) = (holder.client, holder.ino);
    let wanted = match request {
        EntryRequest::Open(mode) => {
            let before = find_or_open(scene, holder)?;
            before.union(opening_wants(*mode))
        }
        EntryRequest::Want(caps) => caps.union(CapSet::of(&[Cap::P])),
        EntryRequest::Ack(seq) => {
            let revoked = revoked_of(&scene.table, holder);
            give_up(&scene.table, &mut scene.locks, holder, revoked);
            scene.table.ack_tested(client, ino, *seq, revoked);
            return Ok(());
        }
        EntryRequest::Release(caps) => {
            give_up(&scene.table, &mut scene.locks, holder, *caps);
            scene.table.release_tested(client, ino, *caps);
            return Ok(());
        }
    };
    scene.table.set_want(client, ino, wanted);
    scene.table.touch(client, ino);
    Ok(())
}

// The client is about to give up these caps, and with the pin its whole entry: each gather that then no longer waits for it is
// acknowledged.
// Where none is under way at the inode the entry is not looked for.
fn give_up(table: &CapTable, locks: &mut Locks, holder: Holder, caps: CapSet)
    ensures locks { locks.new.locks ≡ locks.old.locks }
    // However else the entry is changed.
    ensures rest { has caps P ≡ false → (after : Entry → Entry) → ((e : Entry) → (after e).held ≡ minus e.held caps)
        → AreCounted table.now.entries locks.old → AreCounted (changed table.now.entries holder after) locks.new }
    ensures gone { has caps P ≡ true → AreCounted table.now.entries locks.old → AreCounted (without table.now.entries holder) locks.new }
{
    if !locks.is_gathering(holder.ino) {
        return;
    }
    if let Some(entry) = table.find(holder.client, holder.ino) {
        let left = left_of(entry.held, caps);
        locks.gives_up(EntryRow { holder, entry }, left);
    }
}

// What is still held, once these are given up: with the pin all goes.
fn left_of(held: CapSet, caps: CapSet) -> CapSet
    ensures { result ≡ (if has caps P then no_caps else minus held caps) }
{
    if caps.has(Cap::P) {
        return CapSet::empty();
    }
    held.minus(caps)
}

// What a client that opens an inode wants of it.
fn opening_wants(mode: OpenMode) -> CapSet
    ensures { result ≡ effects.opening_wants mode }
{
    match mode {
        OpenMode::Read => CapSet::of(&[Cap::P, Cap::Fs, Cap::Fc, Cap::Fr]),
        OpenMode::Write => CapSet::of(&[Cap::P, Cap::Fx, Cap::Fw, Cap::Fb]),
        OpenMode::ReadWrite => CapSet::of(&[
            Cap::P,
            Cap::Fs,
            Cap::Fx,
            Cap::Fc,
            Cap::Fr,
            Cap::Fw,
            Cap::Fb,
        ]),
    }
}

/// The reply to the request at the end of the step; the entry is marked as told of what an opening or a want shows.
pub fn show_reply(table: &mut CapTable, holder: Holder, request: &EntryRequest) -> Reply
    ensures reply { (s : State) → s.scene.table ≡ table.old.entries → AreKnown table.old.kept s.scene
        → result ≡ reply_of s [] (words.entry_reply holder request.now) }
    ensures told { (s : State) → s.scene.table ≡ table.old.entries
        → with_table s table.new.entries ≡ shown (words.entry_reply holder request.now) s }
    ensures rest { table.new ≡ record table.old { entries = table.new.entries } }
{
    match request {
        EntryRequest::Open(_) | EntryRequest::Want(_) => {
            match table.tell(holder.client, holder.ino) {
                Some(entry) => Reply::Opened {
                    seq: entry.seq,
                    caps: pending_for(table, holder),
                },
                None => Reply::Done,
            }
        }
        EntryRequest::Ack(_) | EntryRequest::Release(_) => Reply::Done,
    }
}
