//! Who is asked to release, and who hears of it; and who comes off the blocklist.

pub const CASES: &str = "
== 100 locks
# A recall moves nothing.
# Two clients share a file, and a change waits for both.
session 1 10 10 - allow rw => done | -; -; -
session 2 20 20 - allow rw => done | -; -; -
create 1 1 f 0644 => ino 2 | SYNC; -; -
open 1 2 r => caps 1 pFscr | SYNC; pFscr 1; -
open 2 2 r => caps 1 pFscr | SYNC; pFscr 1; pFscr 1
alter 1 2 size 5 => waiting 1 | SYNC to LOCK; pFscr 2 due; pFscr 2 due
# No lock moves, nothing is issued or released, and no number rises.
recall 2 => recalled 1:2 2:2 | SYNC to LOCK; pFscr 2 due; pFscr 2 due
poll 1 9 => messages 2 /  caps 2 2 pFc /  recall 2 | SYNC to LOCK; pFscr 2; pFscr 2 due
row 6 => 1.7 recall 2 => recalled 1:2 2:2
row 8 => no row
";
