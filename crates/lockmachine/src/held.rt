//! What is held that a state of a lock does not allow.
ghost use Rattle.std.specs.Prelude.{◌≡◌};
ghost use Rattle.lockmachine.specs.Held as words;

use capbits::{Ino, Part};
use captable::{CapTable, EntryRow};
use locktable::StableState;

/// How many clients have caps of the part that they may not hold where the part's lock is stable in a state.
pub fn holders_outside(table: &CapTable, ino: Ino, part: Part, state: StableState) -> u32
    ensures { result ≡ words.holders_outside table.now.entries ino part state }
{
    // Each part by itself, so that the caps that cover it are found once, and not for each entry.
    match part {
        Part::A => count_outside(table, ino, Part::A, state),
        Part::L => count_outside(table, ino, Part::L, state),
        Part::X => count_outside(table, ino, Part::X, state),
        Part::F => count_outside(table, ino, Part::F, state),
    }
}

// Goes over all entries on the inode.
fn count_outside(table: &CapTable, ino: Ino, part: Part, state: StableState) -> u32
    ensures { result ≡ words.holders_outside table.now.entries ino part state }
{
    let mut count: u32 = 0;
    let mut walk = table.holders_of(ino);
    'rows: while let Some(row) = walk.next() {
        if has_outside(part, state, row) {
            count += 1;
        }
    }
    count
}

/// Whether the entry's client has such caps.
pub fn has_outside(part: Part, state: StableState, row: EntryRow) -> bool
    ensures { result ≡ words.has_outside part state row }
{
    let held = row.entry.held.part(part);
    !held
        .minus(locktable::row(part, state, row.holder.client))
        .is_empty()
}
