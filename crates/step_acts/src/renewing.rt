//! What clients are permitted is kept anew where the tree or the grants have changed.
ghost use Rattle.std.specs.Prelude.{◌≡◌, ◌==◌, ◌&&◌};
ghost use Rattle.std.specs.FinSet as set;
ghost use Rattle.inotree.specs.Tree.{Nodes};
ghost use Rattle.captable.specs.declared.entry.Holder.{Holder};
ghost use Rattle.capstep.specs.Changing.{tree_changed};
ghost use Rattle.lockmachine.specs.Policy.{ArePermitted, permitted};
ghost use Rattle.lockmachine.specs.Scene.{plain};
ghost use Rattle.step_acts.specs.Known.{known_of};
ghost use Rattle.step_acts.specs.Renewing.{Renews, ServedFrom, has_entry};

use capbits::{ClientId, Ino};
use capstep::{Outcome, sets_attr};
use captable::CapTable;
use inotree::{Names, NonEmptyInoSet};
use lockmachine::{Change, KeptScene, Operation, Policy, Request, permitted, permitted_on};

/// After a request was served that ended so, keeps anew what is permitted on all inodes where that may have changed: on its own, or
/// on the affected ones if it has moved that.
pub fn renew_served(
    scene: &mut KeptScene,
    request: &Request,
    outcome: &Outcome,
    affected: &NonEmptyInoSet,
)
    ensures permitted { (tree : Nodes) → ServedFrom tree request.now outcome.now affected.now (plain scene.old)
        → ArePermitted scene.old.table.kept scene.old.fs tree scene.old.sessions scene.old.table.entries
        → ArePermitted scene.new.table.kept scene.old.fs scene.old.tree scene.old.sessions scene.old.table.entries }
    ensures rest { scene.new ≡ record scene.old { table = record scene.old.table { kept = scene.new.table.kept } } }
    ensures pending { (k : Holder) → known_of scene.new.table.kept k ≡ known_of scene.old.table.kept k }
{
    let Outcome::Done = outcome else {
        return;
    };
    let policy = Policy {
        fs: &scene.fs,
        tree: &scene.tree,
        sessions: &scene.sessions,
    };
    let (table, own) = (&mut scene.table, request.ino);
    match &request.operation {
        Operation::Get(_) => {}
        Operation::Alter(change) => renew_changed(&policy, table, own, change),
        Operation::Unlink | Operation::Rmdir => renew_on(&policy, table, own),
        Operation::Rename { .. } => renew_on_each(&policy, table, affected),
    }
}

// Keeps of each entry on one of these inodes what its client is permitted now.
fn renew_on_each(policy: &Policy<'_>, table: &mut CapTable, inos: &NonEmptyInoSet)
    ensures renews { Renews (λ k. set.contains inos.now k.ino.0 && has_entry table.old.entries k)
        (permitted policy.now.fs.now policy.now.tree.now policy.now.sessions.now) table.old.kept table.new.kept }
    ensures entries { table.new ≡ record table.old { kept = table.new.kept } }
{
    let mut walk = inos.numbers();
    'inodes: while let Some(ino) = walk.next() {
        renew_on(policy, table, ino);
    }
}

/// After the inode was changed so, keeps anew what is permitted on it, where that may have changed.
pub fn renew_changed(policy: &Policy<'_>, table: &mut CapTable, ino: Ino, change: &Change)
    ensures permitted { (tree : Nodes) → policy.now.tree.now ≡ tree_changed tree ino.0 change.now
        → ArePermitted table.old.kept policy.now.fs.now tree policy.now.sessions.now table.old.entries
        → ArePermitted table.new.kept policy.now.fs.now policy.now.tree.now policy.now.sessions.now table.old.entries }
    ensures pending { (k : Holder) → known_of table.new.kept k ≡ known_of table.old.kept k }
    ensures entries { table.new ≡ record table.old { kept = table.new.kept } }
{
    // Of what a change may set, policy reads the owner, the group and the mode alone.
    if sets_attr(change) {
        renew_on(policy, table, ino);
    }
}

/// Keeps of each entry on the inode what its client is permitted now.
pub fn renew_on(policy: &Policy<'_>, table: &mut CapTable, ino: Ino)
    ensures renews { Renews (λ k. (k.ino.0 == ino.0) && has_entry table.old.entries k)
        (permitted policy.now.fs.now policy.now.tree.now policy.now.sessions.now) table.old.kept table.new.kept }
    ensures entries { table.new ≡ record table.old { kept = table.new.kept } }
{
    if table.is_held(ino) {
        renew_held(policy, table, ino);
    }
}

// Keeps it anew on an inode that somebody has an entry on. By itself, since a function makes room for the names when it is called.
fn renew_held(policy: &Policy<'_>, table: &mut CapTable, ino: Ino)
    ensures renews { Renews (λ k. (k.ino.0 == ino.0) && has_entry table.old.entries k)
        (permitted policy.now.fs.now policy.now.tree.now policy.now.sessions.now) table.old.kept table.new.kept }
    ensures entries { table.new ≡ record table.old { kept = table.new.kept } }
{
    // The names from the root are looked up once, and not for each entry.
    let mut names = Names::new();
    let path = policy.tree.read_path(ino, &mut names).then_some(&names);
    let node = policy.tree.node(ino);
    // From holder to holder: a walk over the entries would not let what is kept change.
    let mut next = table.first_on(ino);
    'holders: while let Some(own) = next {
        let permitted = permitted_on(policy.fs, policy.sessions, own.client, path, node);
        table.keep_permitted(own.client, own.ino, permitted);
        next = table.next_on(own.client, own.ino);
    }
}

/// Keeps of each entry of the client what it is permitted now.
pub fn renew_client(policy: &Policy<'_>, table: &mut CapTable, client: ClientId)
    ensures renews { Renews (λ k. (k.client.0 == client.0) && has_entry table.old.entries k)
        (permitted policy.now.fs.now policy.now.tree.now policy.now.sessions.now) table.old.kept table.new.kept }
    ensures entries { table.new ≡ record table.old { kept = table.new.kept } }
{
    let mut next = table.first_of(client);
    'holders: while let Some(own) = next {
        let permitted = permitted(policy.fs, policy.tree, policy.sessions, own.client, own.ino);
        table.keep_permitted(own.client, own.ino, permitted);
        next = table.next_of(own.client, own.ino);
    }
}
