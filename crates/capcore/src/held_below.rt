//! What a request that moves its inode reaches: the inodes at or below it that somebody has an entry on.
ghost use Rattle.std.specs.List.{list_any};
ghost use Rattle.std.specs.Prelude.{◌≡◌, ◌≤◌, ◌+◌, true, Contains, OnOk, OnErr};
ghost use Rattle.std.specs.FinSet as set;
ghost use Rattle.captable.specs.Calls.{is_of_inode};
ghost use Rattle.step_acts.specs.AffectedInodes.{AreWalked, Covers, Widens};
ghost use Rattle.step_acts.specs.Served.{is_rename};

use capbits::Ino;
use capstep::ChangeList;
use captable::CapTable;
use inotree::{InoSet, NonEmptyInoSet};
use lockmachine::{KeptScene, Operation, Request};
use std::alloc::AllocError;

/// If the request moves its inode, adds every inode at or below it that somebody has an entry on, with a place for the change of
/// each. What renames of this step have walked over is affected, and stays so.
pub fn add_held_below(
    scene: &KeptScene,
    request: &Request,
    walked: &mut InoSet,
    affected: &mut NonEmptyInoSet,
    changes: &mut ChangeList,
) -> Result<(), AllocError>
    requires walked { AreWalked walked.old scene.now.tree scene.now.table.entries affected.old }
    ensures walked { AreWalked walked.new scene.now.tree scene.now.table.entries affected.new }
    ensures widens { Widens affected.old affected.new }
    ensures covers { OnOk result (Covers request.now scene.now.tree scene.now.table.entries affected.new) }
    ensures memory { OnErr result (is_rename request.now.operation ≡ true) }
    // There is a place more for each.
    ensures items { changes.new.items ≡ changes.old.items }
    ensures places { changes.old.room + set.len affected.new ≤ changes.new.room + set.len affected.old }
    ensures room { changes.old.room ≤ changes.new.room }
{
    let Operation::Rename { .. } = request.operation else {
        return Ok(());
    };
    // Where a rename of the step has walked from it before, what lies there now was affected then, or when it was moved there.
    if walked.contains(request.ino) {
        return Ok(());
    }
    let inos = scene.tree.within(changes.alloc(), request.ino)?;
    add_held(&scene.table, inos.as_slice(), affected, changes)?;
    // Where this finds no memory, the next rename of the inode walks once more.
    let _walked = walked.insert(request.ino);
    Ok(())
}

// Adds each of these inodes that somebody has an entry on, with a place for its change.
fn add_held(
    table: &CapTable,
    inos: &[Ino],
    affected: &mut NonEmptyInoSet,
    changes: &mut ChangeList,
) -> Result<(), AllocError>
    ensures widens { Widens affected.old affected.new }
    ensures covers { OnOk result ((ino : Ino) → Contains inos.now ino → list_any (is_of_inode ino) table.now.entries.rows ≡ true
        → set.contains affected.new ino.0 ≡ true) }
    ensures items { changes.new.items ≡ changes.old.items }
    ensures places { changes.old.room + set.len affected.new ≤ changes.new.room + set.len affected.old }
    ensures room { changes.old.room ≤ changes.new.room }
{
    for ino in inos {
        if table.is_held(*ino) {
            changes.add_place()?;
            affected.insert(*ino)?;
        }
    }
    Ok(())
}
