//! The locks settle at the inodes that a step affects, and who waits for them is served.
ghost use Rattle.std.specs.Prelude.{◌≡◌, ◌≢◌, ◌≤◌, ◌<◌, ◌+◌, ◌++◌, ◌∷◌, [], true, false, length, ℕ, List, Some, None, vec_capacity};
ghost use Rattle.std.specs.FinSet as set;
ghost use Rattle.capbits.specs.declared.cap.Part.{Part};
ghost use Rattle.inotree.specs.Tree.{IsTree, Nodes};
ghost use Rattle.captable.specs.Known.{known_of};
ghost use Rattle.captable.specs.declared.entry.Holder.{Holder};
ghost use Rattle.sessiontab.specs.Table.{SessionTable};
ghost use Rattle.capstep.specs.declared.outcome.Ended.{Ended};
ghost use Rattle.capstep.specs.NotedChanges.{HavePlaces, LeadOn};
ghost use Rattle.capstep.specs.Settle.{Served, sized_in};
ghost use Rattle.lockmachine.specs.Counts.{AreCounted};
ghost use Rattle.lockmachine.specs.Locks.{request_at};
ghost use Rattle.lockmachine.specs.Scene.{plain};
ghost use Rattle.lockmachine.specs.Scene.{scene as scene_of};
ghost use Rattle.lockmachine.specs.Cursors.{WaitAt, may_end_by};
ghost use Rattle.lockmachine.specs.declared.request.Request.{Request};
ghost use Rattle.step_acts.specs.AffectedInodes.{AreWalked, IsWidenedBy};
ghost use Rattle.step_acts.specs.Served.{changed_alone};
ghost use Rattle.capcore.specs.Begun.{AreCountedIn, ArePermittedIn, HaveRoomFor, IsReady, MaySettle, among};
ghost use Rattle.capcore.specs.Judged.{IsJudged};
ghost use Rattle.capcore.specs.Serves.{EndsWith, Serves, SettlesWith};
ghost use Rattle.capcore.specs.Sweep.{AreStill, GoesOn, IsFirstPlace, IsSwept, StandsAt};

use crate::finish::{finish, finish_alone};
use crate::held_below::add_held_below;
use crate::output::StepOutput;
use capbits::{Ino, Ticket};
use captable::{CapTable, Holder};
use inotree::{InoSet, NonEmptyInoSet};
use lockmachine::{KeptScene, Locks, Move, Policy};
use step_acts::renewing::renew_served;
use step_acts::serving::{changed_inodes, serve};

/// Whose locks may move.
#[derive(Drop)]
pub enum Affected {
    /// Those of the inode, on which this entry alone was affected.
    Entry(Holder),
    /// Those of these inodes.
    Inodes(NonEmptyInoSet),
}

/// Lets the locks settle that an event affected, and ends the step. All other locks are quiet. Where one entry alone was affected,
/// the state was sound before.
pub fn end(scene: &mut KeptScene, affected: Affected, output: &mut StepOutput)
    requires ready { IsReady affected scene.old.table.kept (plain scene.old) output.old }
    requires counted { AreCountedIn scene.old }
    ensures ends { EndsWith (among affected) scene.old.table.kept scene.new.table.kept (plain scene.old) (plain scene.new) output.new.given.items }
    ensures recorded { output.new.recorded.items ≡ output.new.given.items }
    ensures lead { LeadOn output.old.changes.items output.new.changes.items scene.old.tree scene.new.tree }
    ensures counted { AreCountedIn scene.new }
    // As many waited as wait and have ended.
    ensures count { length output.new.given.items + length scene.new.locks.locks.queue ≡ length scene.old.locks.locks.queue }
{
    match affected {
        Affected::Entry(holder) => {
            let before = scene.locks.of_ino(holder.ino);
            let mut included = NonEmptyInoSet::of(output.alloc(), holder.ino);
            settle(scene, &mut included, output);
            // Most steps of such events serve nobody, by which the tree could have changed, and leave these locks as they were; by
            // the same locks and the same tree the others on the inode still have all that the end would give them.
            if output.given.is_empty()
                && included.is_single()
                && scene.locks.of_ino(holder.ino) == before
            {
                finish_alone(scene, holder, &included, &mut output.changes);
            } else {
                finish(scene, &included, output);
            }
        }
        Affected::Inodes(mut inos) => {
            settle(scene, &mut inos, output);
            finish(scene, &inos, output);
        }
    }
}

// Makes the moves, always the first that applies, until none does. Each request that is served ends, once for its client and
// once for the history. Inodes that are moved are affected besides.
fn settle(scene: &mut KeptScene, affected: &mut NonEmptyInoSet, output: &mut StepOutput)
    requires settles { MaySettle (set.contains affected.old) (plain scene.old) }
    requires judged { IsJudged output.old.judged (plain scene.old) }
    requires room { HaveRoomFor (length scene.old.locks.locks.queue) output.old }
    requires places { HavePlaces output.old.changes scene.old.locks.locks affected.old }
    requires permitted { ArePermittedIn scene.old.table.kept (plain scene.old) }
    requires counted { AreCountedIn scene.old }
    ensures settles { SettlesWith (set.contains affected.new) (set.contains affected.old) (plain scene.old) (plain scene.new) output.new.given.items output.new.sized.items }
    ensures tree { IsTree scene.old.tree }
    ensures recorded { output.new.recorded.items ≡ output.new.given.items }
    ensures count { length output.new.given.items + length scene.new.locks.locks.queue ≡ length scene.old.locks.locks.queue }
    ensures lead { LeadOn output.old.changes.items output.new.changes.items scene.old.tree scene.new.tree }
    ensures places { HavePlaces output.new.changes scene.new.locks.locks affected.new }
    ensures pending { (k : Holder) → known_of scene.new.table.kept k ≡ known_of scene.old.table.kept k }
    ensures permitted { ArePermittedIn scene.new.table.kept (plain scene.new) }
    ensures counted { AreCountedIn scene.new }
{
    end_gathers(&scene.table, &mut scene.locks, affected);
    // Those from which a rename has walked over all below. The allocator is the tree's, whose contract tells the proof that it is one.
    let mut walked = InoSet::new(scene.tree.alloc());
    let mut place = SweepPlace::first(affected);
    'servings: while let Some(ticket) = sweep(scene, affected, &mut place) {
        let changed = serve_next(scene, ticket, affected, &mut walked, output);
        // Where no inode changed that the sweep has passed, it goes on; else it begins anew.
        place = match changed {
            Some(inode) if place.at.0 <= inode.0 => place,
            Some(_) | None => SweepPlace::first(affected),
        };
    }
}

// ---- moves of locks

// Where a sweep over the affected inodes has come to.
#[derive(Clone, Copy)]
struct SweepPlace {
    // The inode whose turn it is.
    at: Ino,
    // Whether it is known that nobody who waits at another inode may be served.
    alone: bool,
}

impl SweepPlace {
    // Where it begins.
    fn first(affected: &NonEmptyInoSet) -> SweepPlace
        ensures { IsFirstPlace affected.now result }
    {
        SweepPlace {
            at: affected.first(),
            alone: affected.is_single(),
        }
    }
}

// Ends the gathers of the affected inodes that may end, one inode after the other, but where one alone is affected, which looks for
// them in its turn. No gather of another inode may.
fn end_gathers(table: &CapTable, locks: &mut Locks, affected: &NonEmptyInoSet)
    requires elsewhere { (other : ℕ) (part : Part) → set.contains affected.now other ≡ false
        → may_end_by table.now.entries locks.old.locks (other, part) ≡ false }
    requires counted { AreCounted table.now.entries locks.old }
    ensures counted { AreCounted table.now.entries locks.new }
    ensures ends { set.len affected.now ≢ 1 → (other : ℕ) (part : Part) → may_end_by table.now.entries locks.new.locks (other, part) ≡ false }
    // Each is the first move that applies, whatever the tree and the sessions are.
    ensures swept { (fs : List ℕ) (tree : Nodes) (sessions : SessionTable)
        → WaitAt (set.contains affected.now) (scene_of fs tree sessions table.now.entries locks.old.locks)
        → IsSwept (set.contains affected.now) (scene_of fs tree sessions table.now.entries locks.old.locks)
        (scene_of fs tree sessions table.now.entries locks.new.locks) }
{
    if affected.is_single() {
        return;
    }
    let mut at = affected.first();
    'inodes: loop {
        locks.end_gathers_at(at);
        let Some(next) = affected.after(at) else {
            return;
        };
        at = next;
    }
}

// Lets the locks of the affected inodes move, one inode after the other, from where the sweep has come to, until a request is to be
// served, whose number it answers, or no move applies.
fn sweep(scene: &mut KeptScene, affected: &NonEmptyInoSet, place: &mut SweepPlace) -> Option<Ticket>
    requires place { StandsAt (set.contains affected.now) place.old (plain scene.old) }
    requires still { AreStill (set.contains affected.now) (plain scene.old) }
    requires waits { WaitAt (set.contains affected.now) (plain scene.old) }
    requires permitted { ArePermittedIn scene.old.table.kept (plain scene.old) }
    requires counted { AreCountedIn scene.old }
    ensures swept { IsSwept (set.contains affected.now) (plain scene.old) (plain scene.new) }
    ensures next { GoesOn (plain scene.new) result }
    ensures place { StandsAt (set.contains affected.now) place.new (plain scene.new) }
    ensures rest { scene.new ≡ record scene.old { locks = scene.new.locks } }
    ensures counted { AreCountedIn scene.new }
{
    'inodes: loop {
        let policy = Policy {
            fs: &scene.fs,
            tree: &scene.tree,
            sessions: &scene.sessions,
        };
        let (table, SweepPlace { at, alone }) = (&scene.table, *place);
        if let Some(ticket) = scene.locks.advance_at(&policy, table, at, alone) {
            return Some(ticket);
        }
        match affected.after(at) {
            // And nobody at all may be served.
            Some(at) => *place = SweepPlace { at, alone: true },
            None => return None,
        }
    }
}

// ---- servings

// Serves the request with this number, notes what that changes for readers, and answers the inode that it changes alone. If it moves
// its inode, each inode that is at or below it and has entries is affected; without memory for that it ends as out of memory.
fn serve_next(
    scene: &mut KeptScene,
    ticket: Ticket,
    affected: &mut NonEmptyInoSet,
    walked: &mut InoSet,
    output: &mut StepOutput,
) -> Option<Ino>
    requires tree { IsTree scene.old.tree }
    requires permitted { ArePermittedIn scene.old.table.kept (plain scene.old) }
    requires walked { AreWalked walked.old scene.old.tree scene.old.table.entries affected.old }
    requires waits { (q : Request) × (request_at scene.old.locks.locks ticket.0 ≡ Some q) }
    requires given { length output.old.given.items < vec_capacity output.old.given }
    requires recorded { length output.old.recorded.items < vec_capacity output.old.recorded }
    requires sized { length output.old.sized.items < vec_capacity output.old.sized }
    requires place { length output.old.changes.items < output.old.changes.room }
    requires judged { IsJudged output.old.judged (plain scene.old) }
    ensures judged { output.new.judged ≡ None }
    ensures served { (ended : Ended) × Serves (plain scene.old) ticket ended (plain scene.new)
        × (output.new.given.items ≡ output.old.given.items ++ ended ∷ [])
        × (output.new.recorded.items ≡ output.old.recorded.items ++ ended ∷ [])
        × ((q : Request) → request_at scene.old.locks.locks ticket.0 ≡ Some q
        → output.new.sized.items ≡ output.old.sized.items ++ sized_in (Served q ended.outcome ∷ [])) }
    ensures included { (q : Request) → request_at scene.old.locks.locks ticket.0 ≡ Some q
        → IsWidenedBy q scene.old.tree scene.new.tree scene.old.table.entries affected.old affected.new }
    // By the tree of before.
    ensures walked { AreWalked walked.new scene.old.tree scene.old.table.entries affected.new }
    ensures changed { (q : Request) → request_at scene.old.locks.locks ticket.0 ≡ Some q → result ≡ changed_alone q }
    ensures room { (vec_capacity output.old.given ≤ vec_capacity output.new.given) × (vec_capacity output.old.recorded ≤ vec_capacity output.new.recorded)
        × (vec_capacity output.old.sized ≤ vec_capacity output.new.sized) }
    // At most one change is noted, and there is a place more for each inode that is affected besides.
    ensures lead { LeadOn output.old.changes.items output.new.changes.items scene.old.tree scene.new.tree }
    ensures noted { length output.new.changes.items ≤ length output.old.changes.items + 1 }
    ensures places { output.old.changes.room + set.len affected.new ≤ output.new.changes.room + set.len affected.old }
    ensures pending { (k : Holder) → known_of scene.new.table.kept k ≡ known_of scene.old.table.kept k }
    ensures permitted { ArePermittedIn scene.new.table.kept (plain scene.new) }
    ensures counted { AreCountedIn scene.old → AreCountedIn scene.new }
{
    let Some(request) = scene.locks.apply_move(Move::Serve(ticket)) else {
        unreachable!()
    };
    // Only the first that is served finds the tree as it was when the event came.
    let judged = output.judged.take() == Some(ticket);
    let (alloc, changes) = (output.alloc(), &mut output.changes);
    let room = add_held_below(scene, &request, walked, affected, changes);
    let served = serve(alloc, scene, &request, room.is_ok(), judged);
    changes.note_served(&scene.tree, &request, &served.given);
    renew_served(scene, &request, &served.given, affected);
    let (client, ticket) = (request.client, request.ticket);
    let (sized, changed) = changed_inodes(&request, &served.given);
    // The request goes before its end is told, so that the proof has to follow it but once.
    drop(request);
    output.push(client, ticket, served, sized);
    changed
}
