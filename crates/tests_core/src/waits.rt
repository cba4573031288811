//! Who waits for a file, step by step, and what is kept of it.

pub const CASES: &str = "
== 100 locks
# Requests wait until the lock serves them in a row.
session 1 10 10 - allow rw => done | -; -; -
session 2 20 20 - allow rw => done | -; -; -
create 1 1 f 0644 => ino 2 | SYNC; -; -
open 1 2 rw => caps 1 pFsxcrwb | EXCL(1); pFsxcrwb 1; -
# A change and a request for what it makes wait for the first client, and the second opens the file meanwhile.
alter 2 2 size 5 => waiting 1 | EXCL(1) to LOCK; pFsxcrwb 2 due; -
get 2 2 F => waiting 2 | EXCL(1) to LOCK; pFsxcrwb 2 due; -
open 2 2 r => caps 1 p | EXCL(1) to LOCK; pFsxcrwb 2 due; p 1
poll 1 9 => messages 1 /  caps 2 2 pFc | EXCL(1) to LOCK; pFsxcrwb 2; p 1
# Both are served, and the first client is to cache no more beside the second.
ack 1 2 2 => done | LOCK to MIX; pFc 3 due; p 1
poll 2 1 => messages 1 /  ended 1 done | LOCK to MIX; pFc 3 due; p 1
poll 2 9 => messages 1 /  ended 2 attr F 5 0 | LOCK to MIX; pFc 3 due; p 1
poll 1 9 => messages 2 /  caps 2 3 p /  size 2 5 | LOCK to MIX; pFc 3; p 1
ack 1 2 3 => done | MIX; pFrw 4 due; pFr 2 due
poll 1 9 => messages 1 /  caps 2 4 pFrw | MIX; pFrw 4; pFr 2 due
poll 2 9 => messages 1 /  caps 2 2 pFr | MIX; pFrw 4; pFr 2
# While both have it open, the second asks for its size.
get 2 2 F => waiting 3 | MIX to SYNC; pFrw 5 due; pFr 2
poll 1 9 => messages 1 /  caps 2 5 pFr | MIX to SYNC; pFrw 5; pFr 2
ack 1 2 5 => done | MIX; pFrw 6 due; pFr 2
poll 2 9 => messages 1 /  ended 3 attr F 5 0 | MIX; pFrw 6 due; pFr 2
# What the history has of the first two: none of these rows but the one that served them ended any.
row 4 => 1.5 alter 2 2 size 5 => waiting 1
row 5 => 1.6 get 2 2 F => waiting 2
row 8 => 1.9 ack 1 2 2 => done; ended 1 done; ended 2 attr F 5 0; of 2; of 2
row 9 => 1.10 poll 2 1 => messages 1
row 19 => no row

== 100 locks
# What is served at once has no other end.
# A request that is served at once has its end in its reply alone.
session 1 10 10 - allow rw => done | -; -; -
create 1 1 f 0644 => ino 2 | SYNC; -; -
# Nobody wants the file, so its lock stays.
alter 1 2 size 5 => done | LOCK; -; -
get 1 2 F => attr F 5 0 | LOCK; -; -
open 1 2 r => caps 1 pFscr | SYNC; pFscr 1; -
get 1 2 F => attr F 5 0 | SYNC; pFscr 1; -
row 2 => 1.3 alter 1 2 size 5 => done
row 3 => 1.4 get 1 2 F => attr F 5 0

== 100 locks
# A flush waits for no lock.
session 1 10 10 - allow rw => done | -; -; -
session 2 20 20 - allow rw => done | -; -; -
create 1 1 f 0644 => ino 2 | SYNC; -; -
open 1 2 rw => caps 1 pFsxcrwb | EXCL(1); pFsxcrwb 1; -
# A flush of the data moves no lock, and neither does a holder that asks for what it holds for itself.
flush 1 2 size 5 => done | EXCL(1); pFsxcrwb 1; -
get 1 2 F => attr F 5 0 | EXCL(1); pFsxcrwb 1; -
open 2 2 r => caps 1 p | EXCL(1) to MIX; pFsxcrwb 2 due; p 1
flush 1 2 times 9 => done | EXCL(1) to MIX; pFsxcrwb 2 due; p 1

== 100 locks
# An unlinked file keeps its locks until it is forgotten.
session 1 10 10 - allow rw => done | -; -; -
session 2 20 20 - allow rw => done | -; -; -
create 1 1 f 0644 => ino 2 | SYNC; -; -
open 1 2 rw => caps 1 pFsxcrwb | EXCL(1); pFsxcrwb 1; -
# An unlinked file keeps its locks until it is forgotten. Nobody is permitted more of it than the pin, so all else is called
# back, and a gather ends in a state that nobody fills.
open 2 2 r => caps 1 p | EXCL(1) to MIX; pFsxcrwb 2 due; p 1
unlink 2 2 => done | EXCL(1) to MIX; pFsxcrwb 3 due; p 1
poll 1 9 => messages 1 /  caps 2 3 p | EXCL(1) to MIX; pFsxcrwb 3; p 1
ack 1 2 3 => done | MIX; p 3; p 1
release 1 2 p => done | MIX; -; p 1
get 2 2 F => refused Gone | MIX; -; p 1
release 2 2 p => done | -; -; -
get 2 2 F => refused NoIno | -; -; -
lookup 1 1 f => refused NoEnt | -; -; -

== 100 locks
# A denial when served is in the row that serves.
# What is denied when it is served has moved the lock all the same, and the next request finds it where it is to be.
session 1 10 10 - allow rw => done | -; -; -
session 2 20 20 - allow rw uid=20 => done | -; -; -
create 1 1 f 0646 => ino 2 | SYNC; -; -
open 1 2 rw => caps 1 pFsxcrwb | EXCL(1); pFsxcrwb 1; -
alter 2 2 size 5 => waiting 1 | EXCL(1) to LOCK; pFsxcrwb 2 due; -
alter 1 2 chmod 0600 => done | EXCL(1) to LOCK; pFsxcrwb 2 due; -
poll 1 9 => messages 1 /  caps 2 2 pFc | EXCL(1) to LOCK; pFsxcrwb 2; -
ack 1 2 2 => done | EXCL(1); pFsxcrwb 3 due; -
row 7 => 1.8 ack 1 2 2 => done; ended 1 denied write 1:11; of 2
";
