//! Scripts with what they write.

use crate::asserting::same;
use capscript::run;
use std::alloc::Global;
use std::io;
use texts::{ScriptFault, Watched};

/// Lines with each kind of answer and of message. The last line has no line feed.
pub const ALL_KINDS: &str = "# all kinds

session 1 10 10 - allow rws
session 2 20 20 - none
lookup 2 1 f
create 2 1 f 0644
regrant 2 allow rw
create 1 1 f 0644
open 1 2 rw
alter 2 2 size 5
get 2 2 F
recall 1
poll 1 9
ack 1 2 1
ack 1 2 2
poll 2 9
poll 1 9
get 1 2 A
get 1 2 L
alter 1 2 setx user.a 3130
get 1 2 X
mksnap 2 1 s
recall 0
mksnap 1 1 s";

/// What is written of them.
pub const ALL_KINDS_ANSWERED: &str = "done
done
refused NoEnt
denied write -
done
ino 2
caps 1 pFsxcrwb
waiting 1
waiting 2
recalled 1:2
messages 2
  caps 2 2 pFc
  recall 2
refused OldSeq 2
done
messages 2
  ended 1 done
  ended 2 attr F 5 0
messages 2
  caps 2 3 pFsxcrwb
  size 2 5
attr A 10 10 0644
attr L 1
done
attr X 1 user.a=3130
denied snapshot 1:8
recalled -
done
";

// Runs over line feeds without end: how it ends, whether the reader's flag and the writer's are set, and what is written.
fn run_without_end(alloc: Global) -> (Result<(), ScriptFault>, (bool, bool), Vec<u8>) {
    let mut text = Vec::new(alloc);
    let mut reader = Watched::new(io::repeat(b'\n'));
    let mut writer = Watched::new(&mut text);
    let ended = run(alloc, &mut reader, &mut writer);
    let flags = (reader.failed(), writer.failed());
    (ended, flags, text)
}

#[test]
fn scripts_without_end_are_not_run(rt: HostRuntime) {
    let (ended, flags, text) = run_without_end(rt.alloc());
    same(&rt, ended, Err(ScriptFault::ReadFault), "the end");
    same(&rt, flags, (false, false), "the flags");
    same(&rt, text.as_slice(), b"", "the text");
}
