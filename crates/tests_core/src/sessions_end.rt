//! Sessions that end, and what ends with them.

pub const CASES: &str = "
== 100 locks
# What is dropped is kept before what is served.
# Four requests wait, two of each client, the change of the second first.
session 1 10 10 - allow rw => done | -; -; -
session 2 20 20 - allow rw => done | -; -; -
create 1 1 f 0644 => ino 2 | SYNC; -; -
open 1 2 rw => caps 1 pFsxcrwb | EXCL(1); pFsxcrwb 1; -
alter 2 2 size 5 => waiting 1 | EXCL(1) to LOCK; pFsxcrwb 2 due; -
alter 1 2 size 6 => waiting 2 | EXCL(1) to LOCK; pFsxcrwb 2 due; -
get 2 2 F => waiting 3 | EXCL(1) to LOCK; pFsxcrwb 2 due; -
get 1 2 F => waiting 4 | EXCL(1) to LOCK; pFsxcrwb 2 due; -
# The first held up all of them. What it waited for is dropped, before the rest is served.
close 1 => done | LOCK; -; -
poll 2 9 => messages 2 /  ended 1 done /  ended 3 attr F 5 0 | LOCK; -; -
row 8 => 1.9 close 1 => done; ended 2 dropped; ended 4 dropped; ended 1 done; ended 3 attr F 5 0; of 1; of 1; of 2; of 2

== 100 auth 4
# A gather outlives its request.
# Two hold what a third wants to change.
session 1 10 10 - allow rw => done | -
session 2 20 20 - allow rw => done | -
session 3 30 30 - allow rw path=/a => done | -
mkdir 1 1 a 0755 => ino 2 | -
mkdir 1 1 b 0755 => ino 3 | -
create 1 2 x 0644 => ino 4 | SYNC
open 1 4 r => caps 1 pFscr | SYNC
want 1 4 pAs => caps 2 pAsFscr | SYNC
open 2 4 r => caps 1 pFscr | SYNC
want 2 4 pAs => caps 2 pAsFscr | SYNC
alter 3 4 chmod 0600 => waiting 1 | SYNC to LOCK
# The gather goes on without the request that it was begun for.
close 3 => done | SYNC to LOCK
poll 1 9 => messages 1 /  caps 4 3 pFscr | SYNC to LOCK
ack 1 4 3 => done | SYNC to LOCK
ack 2 4 3 => refused BadSeq | SYNC to LOCK
poll 2 9 => messages 1 /  caps 4 3 pFscr | SYNC to LOCK
ack 2 4 3 => done | SYNC
row 11 => 1.12 close 3 => done; ended 1 dropped; of 3
";
