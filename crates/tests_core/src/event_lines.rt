//! The lines that say events, each written of the event that a line was read as.

use crate::asking::event;
use crate::asserting::{made, same};
use crate::values::sides;
use capexplain::event_line;
use std::alloc::Global;
use std::process::Abort;

// A line that says an event, and the one that is written of it. Each word that a line begins with, in the order of its first letters.
// Numbers, caps, modes, bytes and grants are written in their one form.
const LINES: &str = "
ack 01 2 18446744073709551615 => ack 1 2 18446744073709551615
alter 1 2 chmod 755 => alter 1 2 chmod 0755
alter 1 2 chown 007 => alter 1 2 chown 7
alter 1 2 chgrp 4294967295 => alter 1 2 chgrp 4294967295
alter 1 2 setx user.a - => alter 1 2 setx user.a -
alter 1 2 rmx user.a => alter 1 2 rmx user.a
close 4294967295 => close 4294967295
create 1 1 f 644 => create 1 1 f 0644
evict 1 => evict 1
flush 1 2 size 00 => flush 1 2 size 0
flush 1 2 times 5 => flush 1 2 times 5
flush 1 2 setx user.a 0aff => flush 1 2 setx user.a 0aff
get 1 2 X => get 1 2 X
lookup 1 1 f => lookup 1 1 f
mkdir 1 1 a 7777 => mkdir 1 1 a 7777
mksnap 1 1 s => mksnap 1 1 s
open 1 2 rw => open 1 2 rw
poll 1 09 => poll 1 9
recall 000 => recall 0
regrant 2 none => regrant 2 none
regrant 2 allow r;allow rw path=\"/a\" => regrant 2 allow r, allow rw path=/a
release 1 2 - => release 1 2 -
rename 1 4 3 x => rename 1 4 3 x
renew 1 => renew 1
rmdir 1 2 => rmdir 1 2
rmsnap 1 1 s => rmsnap 1 1 s
session 2 20 20 5,6 allow * path=a => session 2 20 20 5,6 allow rwps path=/a
session 2 20 20 5,6 none => session 2 20 20 5,6 none
session 2 20 20 - none => session 2 20 20 - none
stale 1 => stale 1
unblock 1 => unblock 1
unlink 1 2 => unlink 1 2
want 1 2 pAsFscr => want 1 2 pAsFscr
";

fn is_written(rt: &impl Abort, alloc: Global, line: &str, wanted: &str) {
    let said = event(rt, alloc, line);
    let written = made(rt, event_line(alloc, &said), line);
    same(rt, written.as_slice(), wanted.as_bytes(), line);
}

#[test]
fn an_event_has_one_line(rt: HostRuntime) {
    for line in LINES.lines() {
        if let Some((said, wanted)) = sides(line) {
            is_written(&rt, rt.alloc(), said, wanted);
        }
    }
}
