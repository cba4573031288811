//! The end of a step at the inodes that it affected.
ghost use Rattle.std.specs.Prelude.{◌≡◌, ◌==◌, ◌≤◌, ◌<◌, ◌^◌, ◌-◌, ◌+◌, length, [], IsTrue, All};
ghost use Rattle.std.specs.FinSet as set;
ghost use Rattle.captable.specs.Calls.{entries_on, is_of_inode};
ghost use Rattle.captable.specs.Known.{permitted_of};
ghost use Rattle.captable.specs.Many.{changed_where};
ghost use Rattle.captable.specs.Table.{IsTable};
ghost use Rattle.captable.specs.declared.entry.Holder.{Holder};
ghost use Rattle.sessiontab.specs.Calls.{has_session};
ghost use Rattle.capstep.specs.NotedChanges.{LeadOn};
ghost use Rattle.step_acts.specs.Known.{KnownAnew, OthersHaveAll, known_in};
ghost use Rattle.lockmachine.specs.Policy.{ArePermitted};
ghost use Rattle.lockmachine.specs.Scene.{plain, scene_by};
ghost use Rattle.step_acts.specs.Finishing as words;
ghost use Rattle.capcore.specs.Affected.{forget_among};
ghost use Rattle.capcore.specs.Begun.{AreCountedIn, MayEnd};
ghost use Rattle.capcore.specs.Serves.{EndsAt};

use crate::output::StepOutput;
use crate::sizes::owe_sizes;
use arrayvec::ArrayVec;
use capbits::{ClientId, Ino};
use capstep::ChangeList;
use captable::{CapTable, EntryRow, Holder};
use inotree::{NonEmptyInoSet, Presence};
use lockmachine::{InodeLocks, KeptScene, Locks, Policy};
use policy_view::ViewChange;
use sessiontab::{MAX_SESSIONS, Sessions};
use step_acts::finishing::finish_row;

// ---- at the affected inodes

/// Ends the step at the affected inodes, whose locks have settled: clients are to be told the sizes that changed, it ends for each
/// entry on these inodes, and strays without an entry are forgotten.
pub fn finish(scene: &mut KeptScene, affected: &NonEmptyInoSet, output: &mut StepOutput)
    requires places { length output.old.changes.items + set.len affected.now ≤ output.old.changes.room }
    requires entries { MayEnd scene.old.table.kept (plain scene.old) }
    ensures ends { EndsAt (set.contains affected.now) output.old.sized.items scene.old.table.kept scene.new.table.kept (plain scene.old) (plain scene.new) }
    ensures queue { scene.new.locks.locks.queue ≡ scene.old.locks.locks.queue }
    ensures lead { LeadOn output.old.changes.items output.new.changes.items scene.old.tree scene.new.tree }
    ensures rest { output.new ≡ record output.old { changes = output.new.changes } }
    ensures counted { AreCountedIn scene.old → AreCountedIn scene.new }
{
    owe_sizes(&scene.sessions, &mut scene.table, output.sized.as_slice());
    let policy = Policy {
        fs: &scene.fs,
        tree: &scene.tree,
        sessions: &scene.sessions,
    };
    finish_affected(&policy, &mut scene.table, &scene.locks, affected);
    forget_affected(scene, affected, &mut output.changes);
}

/// Ends the step at the holder's inode alone, where each other entry on it has all that the end would give it: only the holder's
/// is gone through.
pub fn finish_alone(
    scene: &mut KeptScene,
    holder: Holder,
    affected: &NonEmptyInoSet,
    changes: &mut ChangeList,
)
    requires alone { set.contains affected.now ≡ (λ other. other == holder.ino.0) }
    requires others { OthersHaveAll scene.old.table.kept (plain scene.old) holder }
    requires places { length changes.old.items + set.len affected.now ≤ changes.old.room }
    requires entries { MayEnd scene.old.table.kept (plain scene.old) }
    ensures ends { EndsAt (set.contains affected.now) [] scene.old.table.kept scene.new.table.kept (plain scene.old) (plain scene.new) }
    ensures queue { scene.new.locks.locks.queue ≡ scene.old.locks.locks.queue }
    ensures lead { LeadOn changes.old.items changes.new.items scene.old.tree scene.new.tree }
    ensures counted { AreCountedIn scene.old → AreCountedIn scene.new }
{
    if let Some(entry) = scene.table.find(holder.client, holder.ino) {
        let now = scene.locks.of_ino(holder.ino);
        let policy = Policy {
            fs: &scene.fs,
            tree: &scene.tree,
            sessions: &scene.sessions,
        };
        let row = EntryRow { holder, entry };
        finish_row(&policy, &now, &mut scene.table, row, 0);
    }
    forget_affected(scene, affected, changes);
}

// Ends the step for the entries on each affected inode. Each is gone through once, since an entry that was renumbered may have
// no number left.
fn finish_affected(
    policy: &Policy<'_>,
    table: &mut CapTable,
    locks: &Locks,
    affected: &NonEmptyInoSet,
)
    requires entries { MayEnd table.old.kept (scene_by policy.now table.old.entries locks.now.locks) }
    ensures table { table.new.entries
        ≡ changed_where (words.is_on affected.now) (words.entry_by (known_in table.old.kept) policy.now.fs.now policy.now.tree.now policy.now.sessions.now locks.now.locks.states) table.old.entries }
    ensures known { KnownAnew (λ k. set.contains affected.now k.ino.0) (words.pending_by policy.now.fs.now policy.now.tree.now policy.now.sessions.now locks.now.locks.states)
        table.old.entries table.old.kept table.new.kept }
    ensures permitted { (k : Holder) → permitted_of table.new.kept k ≡ permitted_of table.old.kept k }
{
    let mut walk = affected.numbers();
    'inodes: while let Some(ino) = walk.next() {
        let now = locks.of_ino(ino);
        finish_entries(policy, table, ino, &now);
    }
}

// Forgets those that are strays that nobody has an entry on, with their locks, and notes that.
fn forget_affected(scene: &mut KeptScene, affected: &NonEmptyInoSet, changes: &mut ChangeList)
    requires places { length changes.old.items + set.len affected.now ≤ changes.old.room }
    ensures left { plain scene.new ≡ forget_among (set.contains affected.now) (plain scene.old) }
    ensures table { scene.new.table ≡ scene.old.table }
    ensures counted { AreCountedIn scene.old → AreCountedIn scene.new }
    ensures queue { scene.new.locks.locks.queue ≡ scene.old.locks.locks.queue }
    ensures lead { LeadOn changes.old.items changes.new.items scene.old.tree scene.new.tree }
{
    let mut walk = affected.numbers();
    'inodes: while let Some(ino) = walk.next() {
        if matches!(scene.tree.presence(ino), Presence::Gone) && !scene.table.is_held(ino) {
            scene.tree.forget(ino);
            scene.locks.drop_ino(ino);
            changes.push(ViewChange::Forgotten { ino });
        }
    }
}

// ---- at one inode

// Ends the step for each entry on the inode, which has these locks.
fn finish_entries(policy: &Policy<'_>, table: &mut CapTable, ino: Ino, locks: &Option<InodeLocks>)
    requires numbers { All (λ row. row.entry.seq < 2 ^ 64 - 1) (entries_on table.old.entries ino) }
    requires clients { All (λ row. IsTrue (has_session policy.now.sessions.now row.holder.client.0)) table.old.entries.rows }
    requires permitted { ArePermitted table.old.kept policy.now.fs.now policy.now.tree.now policy.now.sessions.now table.old.entries }
    ensures table { table.new.entries
        ≡ changed_where (is_of_inode ino) (words.entry_under (known_in table.old.kept) policy.now.fs.now policy.now.tree.now policy.now.sessions.now locks.now) table.old.entries }
    ensures known { KnownAnew (λ k. k.ino.0 == ino.0) (words.pending_at policy.now.fs.now policy.now.tree.now policy.now.sessions.now locks.now)
        table.old.entries table.old.kept table.new.kept }
    ensures permitted { (k : Holder) → permitted_of table.new.kept k ≡ permitted_of table.old.kept k }
{
    let clients = clients_on(policy.sessions, table, ino);
    let numbers = clients.as_slice();
    if numbers.is_empty() {
        return;
    }
    // Where the next entry is guessed to stand.
    let mut place = table.first_place(ino);
    for number in numbers {
        let client = ClientId(*number);
        if let Some(entry) = table.find_near(client, ino, place) {
            let holder = Holder { client, ino };
            let row = EntryRow { holder, entry };
            finish_row(policy, locks, table, row, place);
        }
        place = table.place_after(place);
    }
}

/// The clients with an entry on an inode, in the order of making. Each has a session, so there is room for them.
pub fn clients_on(sessions: &Sessions, table: &CapTable, ino: Ino) -> ArrayVec<u32, MAX_SESSIONS>
    requires { All (λ row. IsTrue (has_session sessions.now row.holder.client.0)) table.now.entries.rows }
    ensures clients { result.items ≡ words.clients_of (entries_on table.now.entries ino) }
    ensures sound { IsTable table.now.entries }
{
    let mut clients = sessions.room_for_clients();
    let mut walk = table.holders_of(ino);
    'rows: while let Some(row) = walk.next() {
        let client = row.holder.client;
        clients.push(client.0);
    }
    clients
}
