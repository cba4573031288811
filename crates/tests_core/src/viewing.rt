//! What a step changes of what readers see.

use crate::asserting::made;
use capcore::Core;
use policy_view::ViewChange;
use std::alloc::Global;
use std::process::Abort;

// The word of a change.
fn word_of(change: &ViewChange) -> &'static str {
    match change {
        ViewChange::Born { is_dir: true, .. } => "directory",
        ViewChange::Born { .. } => "file",
        ViewChange::Moved { .. } => "moved",
        ViewChange::Removed { .. } => "removed",
        ViewChange::Forgotten { .. } => "forgotten",
        ViewChange::Settled { .. } => "settled",
        ViewChange::Opened { .. } => "opened",
        ViewChange::Ended { .. } => "ended",
        ViewChange::Regranted { .. } => "regranted",
    }
}

/// The words of what the last step says that it changed, the first change first. What a change of its word says is promised: together they
/// lead to what is there then.
pub fn changes_text(rt: &impl Abort, alloc: Global, core: &Core) -> String {
    let mut text = String::new(alloc);
    for change in core.last_changes() {
        if !text.is_empty() {
            made(rt, text.push_str("; "), "a change");
        }
        made(rt, text.push_str(word_of(change)), "a change");
    }
    text
}

pub const CASES: &str = "
== 100 changes
# Each step tells readers what it changes.
# A file, to which its maker alone has a lock; then it is unlinked, and goes once it is released.
session 1 10 11 - allow rws => done | opened
session 2 20 20 - allow rw => done | opened
create 1 1 f 0644 => ino 2 | file
lookup 1 1 f => ino 2
open 1 2 rw => caps 1 pFsxcrwb
unlink 1 2 => done | removed
release 1 2 pFsxcrwb => done | forgotten
unlink 1 2 => refused NoIno
# What is made, moved and changed. Nobody sees sizes, times, attributes and snapshots.
mkdir 1 1 a 0755 => ino 3 | directory
mksnap 1 3 s => done
rmsnap 1 3 s => done
mkdir 1 1 b 0700 => ino 4 | directory
create 1 3 g 0644 => ino 5 | file
rename 1 3 4 c => done | moved
alter 1 5 chmod 0600 => done | settled
alter 1 5 size 7 => done
alter 1 5 times 9 => done
alter 1 5 setx user.a 3130 => done
rmdir 1 4 => refused NotEmpty
rename 1 5 1 g => done | moved
rmdir 1 3 => done | removed; forgotten
# A change waits for the caps of another client, and is told when it is made. A flush makes it at once.
open 2 5 r => caps 1 pFscr
want 2 5 pAsxFscr => caps 2 pAsxFscr
alter 1 5 chmod 0640 => waiting 9
poll 2 9 => messages 1 /  caps 5 3 pFscr
ack 2 5 3 => done | settled
# Sessions end, and have other grants. Nobody sees whether one is stale.
stale 2 => done
renew 2 => done
regrant 2 none => done | regranted
regrant 2 allow r => done | regranted
regrant 7 none => refused NoSession
close 2 => done | ended
session 2 20 20 - allow rw => done | opened
evict 2 => done | ended
session 2 20 20 - allow rw => refused Blocklisted
unblock 2 => done

== 100 changes
# A client that goes takes its strays along.
# A client keeps files that were unlinked. With its session each of them goes, and nobody waits.
session 1 10 10 - allow rw => done | opened
create 1 1 a 0644 => ino 2 | file
create 1 1 b 0644 => ino 3 | file
create 1 1 c 0644 => ino 4 | file
create 1 1 d 0644 => ino 5 | file
create 1 1 e 0644 => ino 6 | file
open 1 2 r => caps 1 pFscr
open 1 3 r => caps 1 pFscr
open 1 4 r => caps 1 pFscr
open 1 5 r => caps 1 pFscr
open 1 6 r => caps 1 pFscr
unlink 1 2 => done | removed
unlink 1 3 => done | removed
unlink 1 4 => done | removed
unlink 1 6 => done | removed
close 1 => done | ended; forgotten; forgotten; forgotten; forgotten

== 2 changes
# A step that is not answered tells nothing.
# The third step finds the history full. What the one before it changed is still told.
session 1 0 0 - allow rw => done | opened
create 1 1 f 0644 => ino 2 | file
lookup 1 1 f => stop Full | file
";
