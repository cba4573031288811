//! `capbench` does a piece of the policy's work many times, or a day's work of clients, so that what it costs can be counted and timed. It
//! prints one line, a sum over every answer or a digest of them, which is the same on each run. And it plays worked cases, the talks in the
//! files that are named to it, to the commands of `capd` and to its own: it prints a line for each talk.
#![tactic(auto)]

mod book;
mod commands;
mod digest;
mod directory_moves;
mod explaining;
mod fault;
mod job;
mod jobs;
mod judging;
mod limits;
mod lines;
mod page;
mod play;
mod publishing;
mod questions;
mod retry;
mod run;
mod scripts;
mod serving;
mod shared_files;
mod streams;
mod talk_fault;
mod talk_line;
mod talk_text;
mod tenants;
mod work;

use crate::commands::{dispatch, report};
use crate::fault::Fault;
use crate::play::play_files;
use std::process::ExitCode;

fn main(rt: HostRuntime) -> ExitCode {
    let (mut reader, mut writer, mut faults) = (rt.stdin(), rt.stdout(), rt.stderr());
    let Ok(words) = cli_queries::words(&rt, rt.alloc()) else {
        return ExitCode::from(report(Fault::NoMemory, &mut faults));
    };
    let status = match words.as_slice() {
        [first, names @ ..] if first.as_slice() == b"play".as_slice() => {
            play_files(&rt, names, &mut writer, &mut faults)
        }
        words => dispatch(&rt, words, &mut reader, &mut writer, &mut faults),
    };
    ExitCode::from(status)
}
