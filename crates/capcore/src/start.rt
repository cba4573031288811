//! The locks of the tree that a core opens with.
ghost use Rattle.std.specs.Option.{option_map};
ghost use Rattle.std.specs.Prelude.{◌≡◌, ℕ, [], IfOk, OnOk, if◌then◌else◌};
ghost use Rattle.std.specs.FinMap as map;
ghost use Rattle.inotree.specs.Tree.{IsTree};
ghost use Rattle.lockmachine.specs.Inodes.{in_sync};
ghost use Rattle.lockmachine.specs.Locks.{with_ino};

use capbits::Ino;
use inotree::Tree;
use lockmachine::Locks;
use std::alloc::{AllocError, Global};

/// The locks of each inode of the tree, each stable in SYNC.
pub fn first_locks(alloc: Global, tree: &Tree) -> Result<Locks, AllocError>
    ensures queue { IfOk result (λ locks. locks.locks.queue ≡ []) }
    ensures last { IfOk result (λ locks. locks.locks.last ≡ 0) }
    ensures states { IfOk result (λ locks. (ino : ℕ)
        → map.get locks.locks.states ino ≡ option_map (λ node. in_sync) (map.get tree.now.nodes ino)) }
{
    let mut locks = Locks::new(alloc)?;
    let last = tree.last();
    for number in 0..last.0 {
        add_locks(&mut locks, tree, Ino(number))?;
    }
    // By itself, since the number after the last may not fit.
    add_locks(&mut locks, tree, last)?;
    Ok(locks)
}

// Adds the locks of an inode, where the tree has it.
fn add_locks(locks: &mut Locks, tree: &Tree, ino: Ino) -> Result<(), AllocError>
    ensures ok { OnOk result (locks.new.locks ≡ (if map.contains_key tree.now.nodes ino.0 then with_ino locks.old.locks ino.0 else locks.old.locks)) }
    ensures sound { IsTree tree.now }
{
    if tree.node(ino).is_some() {
        locks.add_ino(ino)?;
    }
    Ok(())
}
