//! What clients hold of inodes that are moved, and of all that stand below them: what they come to hold and what is taken
//! back, in the step in which the rename is served.

pub const CASES: &str = "
== 100 locks
# The row that serves renames keeps their ends.
session 1 10 10 - allow rw => done | -; -; -
session 2 20 20 - allow rw path=/a => done | -; -; -
create 1 1 f 0644 => ino 2 | SYNC; -; -
mkdir 1 1 a 0755 => ino 3 | SYNC; -; -
mkdir 1 1 b 0755 => ino 4 | SYNC; -; -
rename 1 2 3 f => done | SYNC; -; -
open 2 2 rw => caps 1 pFsxcrwb | EXCL(2); -; pFsxcrwb 1
open 1 2 r => caps 1 p | EXCL(2) to MIX; p 1; pFsxcrwb 2 due
poll 2 9 => messages 1 /  caps 2 2 pFrw | EXCL(2) to MIX; p 1; pFsxcrwb 2
ack 2 2 2 => done | MIX; pFr 2 due; pFrw 2
want 1 2 pLsFr => caps 3 pLsFr | MIX; pLsFr 3; pFrw 2
rename 2 2 3 g => waiting 2 | MIX; pLsFr 4 due; pFrw 2
# The directory is moved away above the file, so the second client's wish to write counts no more.
rename 1 3 4 a => done | MIX to SYNC; pLsFr 4 due; pFrw 3 due
rename 1 2 4 h => waiting 4 | MIX to SYNC; pLsFr 4 due; pFrw 3 due
poll 1 9 => messages 1 /  caps 2 4 pFr | MIX to SYNC; pLsFr 4; pFrw 3 due
ack 1 2 4 => done | MIX to SYNC; pLsFr 5 due; pFrw 3 due
lookup 1 4 h => ino 2 | MIX to SYNC; pLsFr 5 due; pFrw 3 due
lookup 1 3 g => refused NoEnt | MIX to SYNC; pLsFr 5 due; pFrw 3 due
# The row of the step has the ends in their order.
row 12 => 1.13 rename 1 3 4 a => done
row 15 => 1.16 ack 1 2 4 => done; ended 2 denied write 1:4; ended 4 done; of 2; of 1
";
