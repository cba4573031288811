//! The end of a step at one entry.
ghost use Rattle.std.specs.Prelude.{◌≡◌, ◌<◌, ◌^◌, ◌-◌, Some};
ghost use Rattle.captable.specs.Many.{changed_by};
ghost use Rattle.captable.specs.Table.{entry_at, same};
ghost use Rattle.captable.specs.declared.entry.Holder.{Holder};
ghost use Rattle.lockmachine.specs.Policy.{permitted};
ghost use Rattle.step_acts.specs.Known.{KnownAnew, known_in, permitted_of};
ghost use Rattle.step_acts.specs.Finishing as words;

use captable::{CapTable, Entry, EntryRow};
use lockmachine::{InodeLocks, Policy, allowed_under, pending_under, want_of_permitted};

/// Ends the step for one entry, which is there, by what it is known to be permitted and the locks of its inode: issues due caps,
/// raises `seq` if the told set changed, and notes the told set. `place` is a guess at where the entry stands in the table.
pub fn finish_row(
    policy: &Policy<'_>,
    locks: &Option<InodeLocks>,
    table: &mut CapTable,
    row: EntryRow,
    place: usize,
)
    requires there { entry_at table.old.entries row.holder ≡ Some row.entry }
    requires permitted { permitted_of table.old.kept row.holder
        ≡ Some (permitted policy.now.fs.now policy.now.tree.now policy.now.sessions.now row.holder) }
    requires number { row.entry.seq < 2 ^ 64 - 1 }
    ensures table { table.new.entries
        ≡ changed_by (words.entry_under (known_in table.old.kept) policy.now.fs.now policy.now.tree.now policy.now.sessions.now locks.now) table.old.entries row.holder }
    ensures known { KnownAnew (λ k. same k row.holder) (words.pending_at policy.now.fs.now policy.now.tree.now policy.now.sessions.now locks.now)
        table.old.entries table.old.kept table.new.kept }
    ensures permitted { (k : Holder) → permitted_of table.new.kept k ≡ permitted_of table.old.kept k }
{
    let (holder, entry) = (row.holder, row.entry);
    let kept = table.kept_near(holder.client, holder.ino, place);
    // Due is what its client wants, is permitted of that, and the locks allow.
    let wanted = want_of_permitted(policy.sessions, row, kept.permitted);
    let issuable = wanted.meet(allowed_under(&row, locks));
    let held = entry.held.union(issuable);
    let issued = Entry { held, ..entry };
    let ended = EntryRow {
        holder,
        entry: issued,
    };
    let pending = pending_under(&ended, kept.permitted, locks);
    // Most told sets of an inode stay as they are, and so do most entries.
    if pending != kept.pending {
        table.keep_pending(holder.client, holder.ino, pending);
    }
    let before = kept.pending.meet(entry.held);
    if held == entry.held && pending == before {
        return;
    }
    table.issue_numbered(holder.client, holder.ino, issuable, before, pending);
}
