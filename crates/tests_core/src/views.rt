//! A view that follows a server by the changes that it is told: there is memory for each, and one that does not fit is answered as an error.
//! What it answers then is said in `worked_cases`.
//!
//! A case is a text, a change a line: `born INO DIR NAME dir` or `file`, which is user 10's, who alone may write to it; `moved INO DIR NAME`,
//! `removed INO`, `forgotten INO`, `settled INO | OWNER GROUP MODE`, `opened CLIENT | UID GID | GRANTS`, `ended CLIENT`,
//! `regranted CLIENT | GRANTS`. Behind one that the view can't follow stands `=> other`.

use crate::asking::core_of;
use crate::asserting::{made, present, same};
use crate::values::{attr_of, caller_of, cephfs, grants_of, ino_of, number, part, sides, word};
use capbits::{ClientId, Ino};
use capgrant::Access;
use inotree::Name;
use policy_view::{Question, Unknown, View, ViewChange};
use std::process::Abort;

fn name_of(rt: &impl Abort, line: &str) -> Name {
    present(rt, Name::read(word(line, 3).as_bytes()), line)
}

fn change(rt: &(impl Abort + AllocGlobal), line: &str) -> ViewChange {
    let (ino, dir, client) = (ino_of(line, 1), ino_of(line, 2), ClientId(number(line, 1)));
    match word(line, 0) {
        "born" => ViewChange::Born {
            ino,
            dir,
            name: name_of(rt, line),
            attr: attr_of(rt, "10 10 0640"),
            is_dir: word(line, 4) == "dir",
        },
        "moved" => ViewChange::Moved {
            ino,
            dir,
            name: name_of(rt, line),
        },
        "removed" => ViewChange::Removed { ino },
        "forgotten" => ViewChange::Forgotten { ino },
        "settled" => ViewChange::Settled {
            ino,
            attr: attr_of(rt, part(line, 1)),
        },
        "opened" => ViewChange::Opened {
            client,
            caller: caller_of(rt, part(line, 1)),
            grants: grants_of(rt, part(line, 2)),
        },
        "ended" => ViewChange::Ended { client },
        other => {
            same(rt, other, "regranted", line);
            let grants = grants_of(rt, part(line, 1));
            ViewChange::Regranted { client, grants }
        }
    }
}

// Whether it is done, or told of another view.
fn follow(rt: &(impl Abort + AllocGlobal), view: &mut View, line: &str) -> &'static str {
    let change = change(rt, line);
    if view.follow(&change).is_ok() {
        "done"
    } else {
        "other"
    }
}

fn play(rt: &(impl Abort + AllocGlobal), view: &mut View, changes: &str) {
    for line in changes.lines() {
        if let Some((told, wanted)) = sides(line) {
            let found = follow(rt, view, told);
            same(rt, found, wanted, line);
        }
    }
}

// Client 9 is never connected.
fn refuses_who_is_not_connected(rt: &impl Abort, view: &View) {
    let question = Question {
        client: ClientId(9),
        ino: Ino(1),
        access: Access::Read,
    };
    let answer = view.explain(&cephfs(rt), &question);
    let refuses = matches!(answer, Err(Unknown::NoSession));
    same(rt, refuses, true, "client 9");
}

// Tells the changes to a view of a core that was asked this.
fn runs(rt: &(impl Abort + AllocGlobal), asks: &str, changes: &str) {
    let core = core_of(rt, asks);
    let mut view = made(rt, View::of(core.tree(), core.sessions()), "a view");
    drop(core);
    play(rt, &mut view, changes);
    refuses_who_is_not_connected(rt, &view);
}

const OF_EACH_KIND: &str = "
opened 1 | 10 10 | allow rw
born 2 1 a dir
born 3 1 b dir
born 4 2 x file
moved 4 3 y
# A directory, with the file in it.
moved 3 2 c
settled 4 | 11 10 0666
removed 4
forgotten 4
regranted 1 | allow rws
# Who is not connected stays so.
regranted 9 | allow rw
ended 1
opened 1 | 10 10 | allow r
";

const OF_ANOTHER: &str = "
# What does not fit changes nothing.
opened 1 | 10 10 | allow rw
born 3 1 d dir => other
born 2 9 d dir => other
born 2 1 d dir
born 3 1 d file => other
born 3 2 f file
removed 1 => other
removed 2 => other
removed 9 => other
moved 1 2 r => other
moved 2 2 r => other
moved 3 9 r => other
forgotten 3 => other
forgotten 9 => other
settled 9 | 1 1 0777 => other
removed 3
moved 3 1 r => other
";

const WITH_A_SNAPSHOT: &str = "
# The tree had a directory with a snapshot when it was copied. That the snapshot went is not told.
removed 2
forgotten 2
born 3 1 d dir
";

// A directory with a snapshot, and nobody has a session.
const A_SNAPSHOT: &str = "100
session 9 10 10 - allow rws => done
mkdir 9 1 d 0755 => ino 2
mksnap 9 2 s => done
close 9 => done
";

// What a core was asked whose view it is, and the changes.
const CASES: [(&str, &str); 3] = [
    ("100", OF_EACH_KIND),
    ("100", OF_ANOTHER),
    (A_SNAPSHOT, WITH_A_SNAPSHOT),
];

#[test]
fn a_view_follows_its_changes(rt: HostRuntime) {
    for (asks, changes) in CASES {
        runs(&rt, asks, changes);
    }
}
