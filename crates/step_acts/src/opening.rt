//! The entry that a client has on an inode, or is to have.
ghost use Rattle.std.specs.Option.{option_map};
ghost use Rattle.std.specs.Prelude.{◌≡◌, ◌<◌, ◌^◌, ◌-◌, None, Some, IfOk, OnOk, OnErr};
ghost use Rattle.capbits.specs.Refusal.{first_failing};
ghost use Rattle.captable.specs.Calls.{with_entry};
ghost use Rattle.captable.specs.Table.{entry_at};
ghost use Rattle.lockmachine.specs.Scene.{plain};
ghost use Rattle.capstep.specs.Judge.{room_for};
ghost use Rattle.step_acts.specs.Known.{StillKept};

use capbits::CapSet;
use captable::Holder;
use lockmachine::{KeptScene, permitted};
use std::alloc::AllocError;

/// What the holder's entry wants. Where there is none it is made: it wants nothing, nothing of it is known yet, and what its client
/// is permitted is judged. For want of memory nothing changes.
pub fn find_or_open(scene: &mut KeptScene, holder: Holder) -> Result<CapSet, AllocError>
    requires made { scene.old.table.entries.made < 2 ^ 64 - 1 }
    requires passed { first_failing (room_for scene.old.table.entries holder) ≡ None }
    ensures ok { OnOk result (scene.new.table.entries ≡ with_entry scene.old.table.entries holder) }
    ensures rest { OnOk result (scene.new ≡ record scene.old { table = scene.new.table }) }
    ensures wants { IfOk result (λ wants. option_map (λ entry. entry.want) (entry_at scene.new.table.entries holder) ≡ Some wants) }
    ensures err { OnErr result (scene.new ≡ scene.old) }
    ensures kept { StillKept (plain scene.old) scene.new.table.entries scene.old.table.kept scene.new.table.kept }
{
    let (client, ino) = (holder.client, holder.ino);
    match scene.table.find(client, ino) {
        Some(entry) => Ok(entry.want),
        None => {
            scene.table.open_entry_tested(client, ino)?;
            let permitted = permitted(&scene.fs, &scene.tree, &scene.sessions, client, ino);
            scene.table.keep_permitted(client, ino, permitted);
            Ok(CapSet::empty())
        }
    }
}
