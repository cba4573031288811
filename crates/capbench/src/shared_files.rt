//! Clients that all work on the same files: what one writes is revoked from the others, sessions become stale, are thrown out and
//! come back, and entries are asked back.

use crate::job::{Job, POLL};
use capcore::Core;

/// How many clients there are.
const CLIENTS: u64 = 40;

/// How many directories the files stand in.
const FOLDERS: u64 = 10;

/// How many files there are in each.
const FILES: u64 = 40;

/// The inode of the first file: the first directory is made before it.
const FIRST: u64 = 3;

/// Lets all clients in, makes the files, and has the clients work for so many rounds.
pub(crate) fn share(core: &mut Core, job: &mut Job, count: u32) {
    let_all_in(job);
    make_all_files(job);
    for _ in 0..count {
        work(job);
        job.play(core);
    }
}

fn let_all_in(job: &mut Job) {
    for client in 1..=CLIENTS {
        let_in(job, client);
    }
}

// Makes the directories with their files, whose inodes follow them.
fn make_all_files(job: &mut Job) {
    for number in 0..FOLDERS {
        let first = number * (FILES + 1) + FIRST;
        job.add("mkdir 1 1 folder# 0755\n", &[number]);
        job.add_each("create 1 # file# 0644\n", &[first - 1], 0..FILES);
    }
}

// Gives a client its session; every fifth may only read.
fn let_in(job: &mut Job, client: u64) {
    let line = if client % 5 == 0 {
        "session # # # - allow r\n"
    } else {
        "session # # # - allow rw\n"
    };
    job.add(line, &[client]);
}

// One round: a client asks for something of a file, and one listens.
fn work(job: &mut Job) {
    let client = job.among(1, CLIENTS);
    let dice = job.below(1000);
    let place = job.below(FOLDERS * FILES);
    let ino = place.saturating_add(place / FILES).saturating_add(FIRST);
    if dice < 990 {
        job.add(use_of_file(dice), &[client, ino, dice]);
    } else {
        disturb(job, client, dice);
    }
    let listener = job.among(1, CLIENTS);
    job.add(POLL, &[listener]);
}

fn use_of_file(dice: u64) -> &'static str {
    match dice {
        0..450 => "open # # r\n",
        450..550 => "open # # w\n",
        550..650 => "open # # rw\n",
        650..750 => "want # # pFscr\n",
        750..900 => "release # # p\n",
        900..930 => "get # # F\n",
        930..960 => "alter # # size #\n",
        _ => "alter # # chmod 0644\n",
    }
}

// What happens to sessions, and what the server does by itself.
fn disturb(job: &mut Job, client: u64, dice: u64) {
    let lines = match dice {
        990..993 => "stale #\nrenew #\n",
        993..995 => "evict #\nunblock #\n",
        // For a moment it may only read.
        995..998 => "regrant # allow r\nregrant # allow rw\n",
        _ => "recall 100\n",
    };
    job.add(lines, &[client]);
    if let 993..995 = dice {
        let_in(job, client);
    }
}
