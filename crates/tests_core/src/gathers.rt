//! The life of a gather, step by step.

pub const CASES: &str = "
== 100 locks
# A lock goes from gather to gather.
# A lock gathers until all is acknowledged.
session 1 10 10 - allow rw => done | -; -; -
session 2 20 20 - allow rw => done | -; -; -
create 1 1 f 0644 => ino 2 | SYNC; -; -
open 1 2 rw => caps 1 pFsxcrwb | EXCL(1); pFsxcrwb 1; -
open 2 2 r => caps 1 p | EXCL(1) to MIX; pFsxcrwb 2 due; p 1
poll 1 9 => messages 1 /  caps 2 2 pFrw | EXCL(1) to MIX; pFsxcrwb 2; p 1
ack 1 2 2 => done | MIX; pFrw 2; pFr 2 due
poll 2 9 => messages 1 /  caps 2 2 pFr | MIX; pFrw 2; pFr 2
poll 1 9 => messages 0 | MIX; pFrw 2; pFr 2
# A lock that takes from nobody moves at once.
release 1 2 Fxw => refused NotHeld | MIX; pFrw 2; pFr 2
release 1 2 Fw => done | SYNC; pFscr 3 due; pFscr 3 due
poll 1 9 => messages 1 /  caps 2 3 pFscr | SYNC; pFscr 3; pFscr 3 due
poll 2 9 => messages 1 /  caps 2 3 pFscr | SYNC; pFscr 3; pFscr 3
# The last that wants gets the file for itself.
want 2 2 p => caps 4 p | SYNC to EXCL(1); pFscr 3; pFscr 4
ack 2 2 4 => done | EXCL(1); pFsxcrb 4 due; p 4
poll 1 9 => messages 1 /  caps 2 4 pFsxcrb | EXCL(1); pFsxcrb 4; p 4
";
