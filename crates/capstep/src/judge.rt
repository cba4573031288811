//! What rejects a request: its tests and what grants say of the accesses that it needs.
ghost use Rattle.std.specs.Prelude.{◌≡◌, []};
ghost use Rattle.capbits.specs.Refusal.{first_failing};
ghost use Rattle.capstep.specs.Judge.{denial_of, rejection_of};
ghost use Rattle.lockmachine.specs.Scene.{plain};
ghost use Rattle.capstep.specs.Operations.{operation_after, operation_before, operation_needs};
ghost use Rattle.capstep.specs.Operations as words;
ghost use Rattle.capstep.specs.OperationRefs.{operation_of};

use crate::operations::OperationRef;
use crate::rejection::Rejection;
use capbits::{Ino, Refusal};
use capgrant::{Access, Verdict};
use capspec::FsName;
use captable::Holder;
use inotree::{Setting, Tree};
use lockmachine::{Change, KeptScene, verdict_on};
use sessiontab::Sessions;

/// What rejects a request, when it comes and again when it is served.
pub fn operation_rejection(
    scene: &KeptScene,
    holder: Holder,
    operation: OperationRef,
) -> Option<Rejection>
    ensures { let s = plain scene.now in let o = operation_of operation.entry in
        result ≡ rejection_of s (operation_before s holder.ino.0 o) (operation_needs s holder.client holder.ino.0 o) (operation_after s holder.ino.0 o) }
{
    let (tree, ino) = (&scene.tree, holder.ino);
    if let Some(refusal) = before_refusal(scene, ino, operation) {
        return Some(Rejection::ByTest(refusal));
    }
    if let Some(denied) = operation_denial(scene, holder, operation) {
        return Some(denied);
    }
    let refusal = match operation {
        OperationRef::Get(_) => None,
        OperationRef::Alter(change) => change_refusal(scene, ino, change),
        OperationRef::Unlink => tree.file_refusal(ino),
        OperationRef::Rmdir => tree.empty_refusal(ino),
        OperationRef::Rename { dir, name } => tree.new_site_refusal(ino, dir, name.as_slice()),
    };
    Some(Rejection::ByTest(refusal?))
}

// The first test before policy that fails.
fn before_refusal(scene: &KeptScene, ino: Ino, operation: OperationRef) -> Option<Refusal>
    ensures { result ≡ first_failing (operation_before (plain scene.now) ino.0 (operation_of operation.entry)) }
{
    let tree = &scene.tree;
    if let Some(refusal) = tree.inode_refusal(ino) {
        return Some(refusal);
    }
    match operation {
        OperationRef::Get(_) | OperationRef::Alter(_) => None,
        OperationRef::Unlink | OperationRef::Rmdir => tree.root_refusal(ino),
        OperationRef::Rename { dir, .. } => match tree.root_refusal(ino) {
            Some(refusal) => Some(refusal),
            None => tree.inode_refusal(dir),
        },
    }
}

// The denial of the first access that it needs and no grant of its client allows.
fn operation_denial(scene: &KeptScene, holder: Holder, operation: OperationRef) -> Option<Rejection>
    ensures { let s = plain scene.now in result ≡ rejection_of s [] (operation_needs s holder.client holder.ino.0 (operation_of operation.entry)) [] }
{
    let (fs, tree, sessions) = (&scene.fs, &scene.tree, &scene.sessions);
    let Holder { client, ino } = holder;
    // The inode that it needs an access to first, if any, and which; and the directory that it writes to besides.
    let (at, access, into) = match operation {
        OperationRef::Get(_) => (Some(ino), Access::Read, None),
        OperationRef::Alter(change) => (Some(ino), change_access(change), None),
        // The directory that it stands in, if any.
        OperationRef::Unlink | OperationRef::Rmdir => (tree.parent(ino), Access::Write, None),
        OperationRef::Rename { dir, .. } => (tree.parent(ino), Access::Write, Some(dir)),
    };
    if let Some(ino) = at {
        if let Some(denied) = denial(fs, tree, sessions, Holder { client, ino }, access) {
            return Some(denied);
        }
    }
    let ino = into?;
    denial(fs, tree, sessions, Holder { client, ino }, Access::Write)
}

/// The denial of an access that no grant of the client allows.
pub fn denial(
    fs: &FsName,
    tree: &Tree,
    sessions: &Sessions,
    holder: Holder,
    access: Access,
) -> Option<Rejection>
    ensures { result ≡ denial_of fs.now tree.now sessions.now holder access }
{
    match verdict_on(fs, tree, sessions, holder, access) {
        Verdict::Allowed { .. } => None,
        Verdict::Denied { rules } => Some(Rejection::ByPolicy { access, rules }),
    }
}

/// The access that a change needs.
pub fn change_access(change: &Change) -> Access
    ensures { result ≡ words.change_access change.now }
{
    match change {
        Change::Set(Setting::Mode(_)) => Access::Chmod,
        Change::Set(Setting::Uid(uid)) => Access::Chown(*uid),
        Change::Set(Setting::Gid(gid)) => Access::Chgrp(*gid),
        Change::Set(Setting::Size(_) | Setting::Time(_)) => Access::Write,
        Change::SetXattr { name, .. } | Change::RemoveXattr { name } => {
            if name.as_slice().starts_with(b"ceph.") {
                Access::SetVxattr
            } else {
                Access::Write
            }
        }
    }
}

/// The first test of a change that fails.
pub fn change_refusal(scene: &KeptScene, ino: Ino, change: &Change) -> Option<Refusal>
    ensures { result ≡ first_failing (words.change_tests (plain scene.now) ino.0 change.now) }
{
    let tree = &scene.tree;
    match change {
        Change::Set(setting) => tree.setting_refusal(ino, setting),
        Change::SetXattr { name, value } => {
            tree.new_attribute_refusal(ino, name.as_slice(), value.as_slice())
        }
        Change::RemoveXattr { name } => tree.old_attribute_refusal(ino, name.as_slice()),
    }
}
