//! The changes of a view, one function for each. What a call of the tree requires is tested first: the view may be another one
//! than that of which the change is told.
ghost use Rattle.std.specs.Prelude.{◌≡◌, OnOk, OnErr};
ghost use Rattle.capbits.specs.Refusal.{first_failing};
ghost use Rattle.inotree.specs.Calls.{with_new};
ghost use Rattle.inotree.specs.Tests.{create_tests};
ghost use Rattle.policy_view.specs.Changes.{connected_clients_by, kind_by, tree_by};
ghost use Rattle.policy_view.specs.declared.change.ViewChange.TheVariants as change;

use crate::change::ViewChange;
use capbits::{Caller, ClientId, Ino};
use capgrant::Attr;
use capspec::{Grants, KeptGrants};
use inotree::{Name, Presence, Tree};
use sessiontab::{Connected, Session, Status};
use std::alloc::AllocError;

// ---- of the tree

// Makes a change of the tree. Those of the sessions leave it.
pub(crate) fn follow_tree(tree: &mut Tree, view_change: &ViewChange) -> Result<(), AllocError>
    ensures ok { OnOk result (tree.new ≡ tree_by tree.old view_change.now) }
    ensures err { OnErr result (tree.new ≡ tree.old) }
{
    match view_change {
        ViewChange::Born {
            ino,
            dir,
            name,
            attr,
            is_dir,
        } => born(tree, *ino, *dir, name, *attr, *is_dir),
        ViewChange::Moved { ino, dir, name } => moved(tree, *ino, *dir, name),
        ViewChange::Removed { ino } => removed(tree, *ino),
        ViewChange::Forgotten { ino } => forgotten(tree, *ino),
        ViewChange::Settled { ino, attr } => settled(tree, *ino, *attr),
        ViewChange::Opened { .. } | ViewChange::Ended { .. } | ViewChange::Regranted { .. } => Ok(
            (),
        ),
    }
}

// An inode is made, which has the next number.
fn born(
    tree: &mut Tree,
    ino: Ino,
    dir: Ino,
    name: &Name,
    attr: Attr,
    is_dir: bool,
) -> Result<(), AllocError>
    ensures ok { OnOk result (tree.new ≡ tree_by tree.old (change.Born ino dir name.now attr is_dir)) }
    ensures err { OnErr result (tree.new ≡ tree.old) }
{
    if tree.last().0.checked_add(1) != Some(ino.0) {
        return Err(AllocError);
    }
    if tree.inode_refusal(dir).is_some() {
        return Err(AllocError);
    }
    if tree.new_inode_refusal(dir, name.as_bytes()).is_some() {
        return Err(AllocError);
    }
    match make(tree, dir, name, attr, is_dir) {
        Ok(_ino) => Ok(()),
        Err(AllocError) => Err(AllocError),
    }
}

// Makes a file or a directory.
fn make(tree: &mut Tree, dir: Ino, name: &Name, attr: Attr, is_dir: bool) -> Result<Ino, AllocError>
    requires passed { first_failing (create_tests tree.old dir.0 name.now) ≡ None }
    ensures ok { OnOk result (tree.new ≡ with_new tree.old (kind_by is_dir) dir.0 name.now attr) }
    ensures err { OnErr result (tree.new ≡ tree.old) }
{
    if is_dir {
        tree.mkdir_tested(dir, name.as_bytes(), attr)
    } else {
        tree.create_tested(dir, name.as_bytes(), attr)
    }
}

// An inode is moved.
fn moved(tree: &mut Tree, ino: Ino, dir: Ino, name: &Name) -> Result<(), AllocError>
    ensures ok { OnOk result (tree.new ≡ tree_by tree.old (change.Moved ino dir name.now)) }
    ensures err { OnErr result (tree.new ≡ tree.old) }
{
    if tree.inode_refusal(ino).is_some() || tree.root_refusal(ino).is_some() {
        return Err(AllocError);
    }
    if tree.inode_refusal(dir).is_some() {
        return Err(AllocError);
    }
    if tree.new_site_refusal(ino, dir, name.as_bytes()).is_some() {
        return Err(AllocError);
    }
    tree.rename_tested(ino, dir, name.as_bytes())
}

// An inode becomes a stray. The snapshots of a directory don't matter: they are not told of.
fn removed(tree: &mut Tree, ino: Ino) -> Result<(), AllocError>
    ensures ok { OnOk result (tree.new ≡ tree_by tree.old (change.Removed ino)) }
    ensures err { OnErr result (tree.new ≡ tree.old) }
{
    if tree.inode_refusal(ino).is_some() || tree.root_refusal(ino).is_some() {
        return Err(AllocError);
    }
    if tree.childless_refusal(ino).is_some() {
        return Err(AllocError);
    }
    tree.detach(ino);
    Ok(())
}

// A stray is forgotten.
fn forgotten(tree: &mut Tree, ino: Ino) -> Result<(), AllocError>
    ensures ok { OnOk result (tree.new ≡ tree_by tree.old (change.Forgotten ino)) }
    ensures err { OnErr result (tree.new ≡ tree.old) }
{
    match tree.presence(ino) {
        Presence::Gone => {
            tree.forget(ino);
            Ok(())
        }
        Presence::NoIno | Presence::Here => Err(AllocError),
    }
}

// An inode has another owner, group or mode.
fn settled(tree: &mut Tree, ino: Ino, attr: Attr) -> Result<(), AllocError>
    ensures ok { OnOk result (tree.new ≡ tree_by tree.old (change.Settled ino attr)) }
    ensures err { OnErr result (tree.new ≡ tree.old) }
{
    if tree.inode_refusal(ino).is_some() {
        return Err(AllocError);
    }
    tree.settle(ino, attr);
    Ok(())
}

// ---- of the sessions

// Makes a change of the sessions. Those of the tree leave them.
pub(crate) fn follow_session(
    sessions: &mut Connected,
    view_change: &ViewChange,
) -> Result<(), AllocError>
    ensures ok { OnOk result (sessions.new ≡ connected_clients_by sessions.old view_change.now) }
    ensures err { OnErr result (sessions.new ≡ sessions.old) }
{
    match view_change {
        ViewChange::Opened {
            client,
            caller,
            grants,
        } => opened(sessions, *client, caller, grants),
        ViewChange::Ended { client } => {
            sessions.remove(*client);
            Ok(())
        }
        ViewChange::Regranted { client, grants } => regranted(sessions, *client, grants),
        ViewChange::Born { .. }
        | ViewChange::Moved { .. }
        | ViewChange::Removed { .. }
        | ViewChange::Forgotten { .. }
        | ViewChange::Settled { .. } => Ok(()),
    }
}

// A client is connected.
fn opened(
    sessions: &mut Connected,
    client: ClientId,
    caller: &Caller,
    grants: &Grants,
) -> Result<(), AllocError>
    ensures ok { OnOk result (sessions.new ≡ connected_clients_by sessions.old (change.Opened client caller.now grants.now)) }
    ensures err { OnErr result (sessions.new ≡ sessions.old) }
{
    let grants = grants.copy()?;
    let session = Session {
        status: Status::Open,
        caller: caller.copy(),
        grants: KeptGrants::new(grants),
    };
    sessions.insert(client, session)
}

// A client that is connected has other grants.
fn regranted(sessions: &mut Connected, client: ClientId, grants: &Grants) -> Result<(), AllocError>
    ensures ok { OnOk result (sessions.new ≡ connected_clients_by sessions.old (change.Regranted client grants.now)) }
    ensures err { OnErr result (sessions.new ≡ sessions.old) }
{
    let grants = grants.copy()?;
    sessions.set_grants(client, grants);
    Ok(())
}
