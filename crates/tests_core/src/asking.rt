//! The core that is asked: cases as text, what is seen beside each answer, and what is left.
//!
//! A text of cases has a head before each, `== ROWS SEEN`: how many rows the history takes, and what is seen beside each answer:
//!
//! - `locks`: the file lock of inode 2, and what the clients 1 and 2 hold of it with the number of the last change, and `due` where they are
//!   not told of it yet
//! - `auth INO`: the auth lock of an inode
//! - `changes`: what the last step that was answered says that it changed of what readers see
//! - else nothing
//!
//! Behind it stand the lines that are asked one by one. A line is `LINE => ANSWER`, or `LINE => ANSWER | SEEN` where something is seen then.
//! Pass 1 calls it, or another one, as in `7: LINE => ANSWER`. The lines of an answer stand behind each other, a ` /` between them.
//! `row N => ROW` is a row of the history, from 0, and behind it whose each request was that it ended.

use crate::asserting::{made, same};
use crate::looking::row_text;
use crate::steps::{auth_lock_text, locks_text};
use crate::values::{ino_of, number, sides, text_of, word};
use crate::viewing::changes_text;
use crate::{gathers, histories, moved_entries, recalls, sessions_end, viewing, waits};
use capbits::PassId;
use capcore::Core;
use capexplain::{read_line, reply_lines};
use capscript::file_system;
use capstep::stop::Stop;
use capstep::{Event, Reply};
use std::alloc::{AllocError, Global};
use std::process::Abort;

/// The event that a line says.
pub fn event(rt: &impl Abort, alloc: Global, line: &str) -> Event {
    match read_line(alloc, 1, line.as_bytes()) {
        Ok(Some((_, event))) => event,
        _ => panic!(rt; "no event: {line}"),
    }
}

// The lines of an answer, or why there is none.
fn answer_text(rt: &impl Abort, alloc: Global, answer: Result<Reply, Stop>) -> String {
    match answer {
        Ok(reply) => {
            let mut lines = made(rt, reply_lines(alloc, &reply), "an answer");
            lines.pop();
            let lines = text_of(rt, alloc, lines.as_slice());
            made(rt, lines.replace(alloc, '\n', " /"), "an answer")
        }
        Err(stop) => made(rt, format!(in alloc; "stop {stop}"), "a stop"),
    }
}

// What is seen by the head of a case.
fn beside_text(rt: &impl Abort, alloc: Global, core: &Core, head: &str) -> String {
    match word(head, 1) {
        "locks" => locks_text(rt, alloc, core),
        "auth" => auth_lock_text(rt, alloc, core, ino_of(head, 2)),
        "changes" => changes_text(rt, alloc, core),
        _ => String::new(alloc),
    }
}

// Calls the event of a line, behind the number of the pass if it is not 1: what is answered, and what is seen then.
fn called(rt: &impl Abort, alloc: Global, core: &mut Core, head: &str, asked: &str) -> String {
    let (pass, line) = asked.split_once(": ").unwrap_or(("1", asked));
    let answer = core.apply(PassId(number(pass, 0)), event(rt, alloc, line));
    let answer = answer_text(rt, alloc, answer);
    let seen = beside_text(rt, alloc, core, head);
    if seen.is_empty() {
        return answer;
    }
    made(rt, format!(in alloc; "{answer} | {seen}"), "an answer")
}

// Asks the lines of a text, and compares what is found with what is wanted.
fn ask(rt: &impl Abort, alloc: Global, core: &mut Core, head: &str, text: &str) {
    for line in text.lines() {
        if let Some((asked, wanted)) = sides(line) {
            let found = match asked.strip_prefix("row ") {
                Some(place) => row_text(rt, alloc, core, number(place, 0) as usize),
                None => called(rt, alloc, core, head, asked),
            };
            same(rt, found.as_str(), wanted, line);
        }
    }
}

// A core on a tree that has its root alone, which is user 0's. Its history takes so many rows.
fn fresh(alloc: Global, max_rows: u32) -> Result<Core, AllocError> {
    let (fs, tree) = file_system(alloc)?;
    Core::new(alloc, fs, tree, max_rows)
}

/// A fresh core that was asked the lines of a case. A core is owned by few functions of the tests: each statement of one that does is dear to
/// prove.
pub fn core_of(rt: &(impl AllocGlobal + Abort), case: &str) -> Core {
    let (head, text) = case.split_once('\n').unwrap_or((case, ""));
    let mut core = made(rt, fresh(rt.alloc(), number(head, 0)), "a core");
    ask(rt, rt.alloc(), &mut core, head, text);
    core
}

// Each case on a core of its own. Nothing stands before the first head.
fn play(rt: &(impl AllocGlobal + Abort), cases: &str) {
    for case in cases.split("\n== ") {
        if !case.is_empty() {
            drop(core_of(rt, case));
        }
    }
}

// The cases of each topic.
const TOPICS: &[&str] = &[
    gathers::CASES,
    histories::CASES,
    moved_entries::CASES,
    recalls::CASES,
    sessions_end::CASES,
    viewing::CASES,
    waits::CASES,
];

#[test]
fn each_step_is_answered_by_the_rules(rt: HostRuntime) {
    for cases in TOPICS {
        play(&rt, cases);
    }
}
