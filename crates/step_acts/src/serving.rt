//! How a request that waited for a lock is served: it is judged again, and then its operation is carried out.
ghost use Rattle.std.specs.Prelude.{◌≡◌, None, Some, true, false, IfOk, OnOk, OnErr};
ghost use Rattle.std.specs.FinMap as map;
ghost use Rattle.capbits.specs.Refusal.{first_failing};
ghost use Rattle.captable.specs.Table.{Table};
ghost use Rattle.capstep.specs.Changing.{tree_after, tree_changed, tree_with};
ghost use Rattle.lockmachine.specs.Locks.{LockMap};
ghost use Rattle.lockmachine.specs.Scene.{Scene, plain};
ghost use Rattle.lockmachine.specs.Scene.{scene as scene_of};
ghost use Rattle.capstep.specs.Serving.{MayEndAs, judged_again, rejection_outcome, takes_memory, values_outcome};
ghost use Rattle.lockmachine.specs.declared.request.Operation.TheVariants as operation_kind;
ghost use Rattle.capstep.specs.Serving as words;
ghost use Rattle.capstep.specs.Recorded.{twice};
ghost use Rattle.capstep.specs.Settle.{Served, sized_by};
ghost use Rattle.step_acts.specs.Served.{call_tests, change_call_tests, changed_alone, is_rename};

use capbits::{Ino, Part};
use capstep::judge::operation_rejection;
use capstep::{Outcome, PartValues, Recorded, Rejection, copy_of_rules, operation_ref};
use captable::Holder;
use inotree::{Node, Setting, Tree};
use lockmachine::{Change, KeptScene, Operation, Request};
use std::alloc::{AllocError, Global};

/// Serves a request: it ends by what rejects it now, or its operation is carried out. One that was judged on this tree when it
/// came is not judged again. A request that moves its inode and found no room for what it reaches ends as out of memory, unless
/// something rejects it.
pub fn serve(
    alloc: Global,
    scene: &mut KeptScene,
    request: &Request,
    room: bool,
    judged: bool,
) -> Recorded<Outcome>
    requires room { room ≡ false → is_rename request.now.operation ≡ true }
    requires judged { judged ≡ true → judged_again (plain scene.old) request.now ≡ None }
    ensures ends { (table : Table) (locks : LockMap)
        → MayEndAs (scene_of scene.old.fs scene.old.tree scene.old.sessions table locks) request.now result.given }
    ensures recorded { result.recorded ≡ result.given }
    ensures tree { scene.new.tree ≡ tree_after scene.old.tree request.now result.given }
    ensures rest { scene.new ≡ record scene.old { tree = scene.new.tree } }
    ensures stays { room ≡ false → scene.new.tree ≡ scene.old.tree }
{
    if !judged {
        let (client, ino) = (request.client, request.ino);
        let operation = operation_ref(&request.operation);
        if let Some(rejection) = operation_rejection(scene, Holder { client, ino }, operation) {
            return rejected(rejection);
        }
    }
    if !room {
        return Recorded {
            given: Outcome::OutOfMemory,
            recorded: Outcome::OutOfMemory,
        };
    }
    match carry_out(alloc, &mut scene.tree, request.ino, &request.operation) {
        Ok(served) => served,
        Err(AllocError) => Recorded {
            given: Outcome::OutOfMemory,
            recorded: Outcome::OutOfMemory,
        },
    }
}

// ---- what it does

// For want of memory nothing changes.
fn carry_out(
    alloc: Global,
    tree: &mut Tree,
    ino: Ino,
    operation: &Operation,
) -> Result<Recorded<Outcome>, AllocError>
    requires passed { first_failing (call_tests tree.old ino.0 operation.now) ≡ None }
    ensures outcome { IfOk result (λ served. (s : Scene) → s.tree ≡ tree.old
        → served ≡ twice (words.passed_as s ino.0 operation.now)) }
    ensures tree { OnOk result (tree.new ≡ tree_with tree.old ino.0 operation.now) }
    ensures err { OnErr result (tree.new ≡ tree.old) }
    ensures memory { OnErr result (takes_memory operation.now ≡ true) }
{
    match operation {
        Operation::Get(part) => return read(alloc, tree, ino, *part),
        Operation::Alter(change) => alter(tree, ino, change)?,
        Operation::Unlink => tree.unlink_tested(ino),
        Operation::Rmdir => tree.rmdir_tested(ino),
        Operation::Rename { dir, name } => tree.rename_tested(ino, *dir, name.as_slice())?,
    }
    Ok(Recorded {
        given: Outcome::Done,
        recorded: Outcome::Done,
    })
}

/// Changes what the inode keeps.
pub fn alter(tree: &mut Tree, ino: Ino, change: &Change) -> Result<(), AllocError>
    requires passed { first_failing (change_call_tests tree.old ino.0 change.now) ≡ None }
    ensures ok { OnOk result (tree.new ≡ tree_changed tree.old ino.0 change.now) }
    ensures err { OnErr result (tree.new ≡ tree.old) }
    ensures memory { OnErr result (words.change_takes_memory change.now ≡ true) }
{
    match change {
        Change::Set(setting) => tree.set_tested(ino, *setting),
        Change::SetXattr { name, value } => tree.set_xattr_tested(
            ino,
            name.as_slice(),
            value.as_slice(),
        )?,
        Change::RemoveXattr { name } => tree.remove_xattr_tested(ino, name.as_slice()),
    }
    Ok(())
}

// What is read of a part. Tested before: the inode exists.
fn read(alloc: Global, tree: &Tree, ino: Ino, part: Part) -> Result<Recorded<Outcome>, AllocError>
    ensures outcome { IfOk result (λ served. served ≡ twice (values_outcome part (map.get tree.now.nodes ino.0))) }
    ensures memory { OnErr result (takes_memory (operation_kind.Get part) ≡ true) }
{
    match tree.node(ino) {
        Some(node) => Ok(Recorded {
            given: values_of(alloc, node, part)?,
            recorded: values_of(alloc, node, part)?,
        }),
        None => Ok(Recorded {
            given: Outcome::Done,
            recorded: Outcome::Done,
        }),
    }
}

// What the inode keeps of the part. A list of attributes is copied.
fn values_of(alloc: Global, node: &Node, part: Part) -> Result<Outcome, AllocError>
    ensures values { IfOk result (λ outcome. outcome ≡ values_outcome part (Some node.now)) }
    ensures memory { OnErr result (takes_memory (operation_kind.Get part) ≡ true) }
{
    Ok(Outcome::Values(match part {
        Part::A => PartValues::Auth(node.attr),
        Part::L => PartValues::Link,
        Part::X => PartValues::Xattr(node.attributes.copy(alloc)?),
        Part::F => PartValues::File {
            size: node.size,
            time: node.time,
        },
    }))
}

// How a request ends that was rejected.
fn rejected(rejection: Rejection) -> Recorded<Outcome>
    ensures { result ≡ twice (rejection_outcome rejection) }
{
    match rejection {
        Rejection::ByPolicy { access, rules } => {
            let copy = copy_of_rules(&rules);
            let given = Outcome::Denied { access, rules };
            let rules = copy;
            let recorded = Outcome::Denied { access, rules };
            Recorded { given, recorded }
        }
        Rejection::ByTest(refusal) => Recorded {
            given: Outcome::Refused(refusal),
            recorded: Outcome::Refused(refusal),
        },
    }
}

/// The inode of the request, if it set the size; and the same, if it changed no other.
pub fn changed_inodes(request: &Request, outcome: &Outcome) -> (Option<Ino>, Option<Ino>)
    ensures sized { result.0 ≡ sized_by (Served request.now outcome.now) }
    ensures alone { result.1 ≡ changed_alone request.now }
{
    let own = Some(request.ino);
    match (&request.operation, outcome) {
        (Operation::Rename { .. }, _) => (None, None),
        (Operation::Alter(Change::Set(Setting::Size(_))), Outcome::Done) => (own, own),
        _ => (None, own),
    }
}
