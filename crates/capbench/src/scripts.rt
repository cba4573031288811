//! Whole scripts: those that are run as `capd run` does it, and those that are served as `capd serve` does.

use crate::fault::Fault;
use crate::job::Job;
use crate::jobs::Amount;
use capscript::run;
use cli::serve;
use std::alloc::Global;
use std::hash::{DefaultHasher, Hasher};
use std::sync::Wait;
use std::thread::Threads;
use texts::Watched;

/// How many directories stand in each other.
const DEPTH: u64 = 28;

/// How many clients are served by threads.
const THREADS: u64 = 8;

/// How many files each of them has.
const FILES: u64 = 64;

/// The lines with which a script that is run begins, those of one more file and of another one: one client makes the file and writes it,
/// and another looks it up; the other opens the other file for a moment, and the first changes its mode.
const INGEST: &str = "session 1 10 10 - allow rw\nsession 2 20 20 - allow r path=/pub, allow r\n";

const UPLOAD: &str =
    "create 1 # upload# 0644\nopen 1 # w\nflush 1 # size #\nlookup 2 # upload#\nrelease 1 # p\n";

const CHANGE: &str = "open 2 # r\nrelease 2 # p\nalter 1 # chmod 0640\n";

/// The first lines of a client that is served.
const CLIENT: &str = "session # 10 10 - allow rw\nmkdir # 1 home# 0755\n";

/// Runs a script of so many rounds, and returns the digest of its transcript.
pub(crate) fn run_script(alloc: Global, amount: Amount) -> Result<u64, Fault> {
    let script = ingest(Job::new(alloc, amount.seed), amount.count)?;
    let written = transcript(alloc, script.as_slice())?;
    Ok(digest_of(written.as_slice()))
}

// What is written of a script that is run. What is promised of it stays behind here.
fn transcript(alloc: Global, script: &[u8]) -> Result<Vec<u8>, Fault> {
    let mut written = Vec::new(alloc);
    let mut reader = script;
    run(
        alloc,
        &mut Watched::new(&mut reader),
        &mut Watched::new(&mut written),
    )?;
    Ok(written)
}

/// Serves a script of so many rounds, and returns the digest of its history.
pub(crate) fn serve_script(
    rt: &(impl AllocGlobal + Threads + Wait + Sync),
    amount: Amount,
) -> Result<u64, Fault> {
    let script = served_script(rt.alloc(), amount)?;
    let history = served(rt, script.as_slice())?;
    Ok(history_digest(history.as_slice()))
}

// What is written of a script that is served. What is promised of it stays behind here.
fn served(
    rt: &(impl AllocGlobal + Threads + Wait + Sync),
    script: &[u8],
) -> Result<Vec<u8>, Fault> {
    let mut written = Vec::new(rt.alloc());
    let mut reader = script;
    serve(
        rt,
        rt.alloc(),
        &mut Watched::new(&mut reader),
        &mut Watched::new(&mut written),
    )?;
    Ok(written)
}

// The script of so many rounds that is to be served: clients that each work on files of their own, from threads of their own. Nothing that
// they ask for waits, since the number of a request that waits depends on when its thread was served.
fn served_script(alloc: Global, amount: Amount) -> Result<Vec<u8>, Fault> {
    let mut job = Job::new(alloc, amount.seed);
    add_clients(&mut job);
    job.add("threads\n", &[]);
    for round in 0..u64::from(amount.count) {
        add_round(&mut job, round);
    }
    job.script()
}

// The digest of the history of a script that is served. It is the same in whatever order the threads were served: the sum of the digests of
// the lines, of which each has the pass of its client, and its number among that client's.
fn history_digest(text: &[u8]) -> u64 {
    let mut sum: u64 = 0;
    for line in text.split(|byte| *byte == b'\n') {
        sum = sum.wrapping_add(digest_of(line));
    }
    sum
}

// The digest of a text.
fn digest_of(text: &[u8]) -> u64 {
    let mut digest = DefaultHasher::new();
    digest.write(text);
    digest.finish()
}

// A client fills a deep chain of directories with files, and looks at them; another opens what it finds there.
fn ingest(mut job: Job, count: u32) -> Result<Vec<u8>, Fault> {
    job.add(INGEST, &[]);
    job.add_each("mkdir 1 # level# 0755\n", &[], 1..DEPTH + 1);
    for round in 0..u64::from(count) {
        add_file(&mut job, round);
    }
    job.script()
}

// The lines of one more file, which gets the next number, and of one that is there.
fn add_file(job: &mut Job, round: u64) {
    let folder = job.among(1, DEPTH + 1);
    let any = job.among(DEPTH + 2, round.saturating_add(1));
    let made = round.saturating_add(DEPTH + 2);
    job.add(
        UPLOAD,
        &[folder, round, made, made, round, folder, round, made],
    );
    job.add(CHANGE, &[any]);
}

// The clients with their directories and files: the directory of client 1 is inode 2, and its files follow it.
fn add_clients(job: &mut Job) {
    for client in 1..=THREADS {
        job.add(CLIENT, &[client]);
        job.add_each(
            "create # # file# 0644\n",
            &[client, home_of(client)],
            0..FILES,
        );
    }
}

fn home_of(client: u64) -> u64 {
    client
        .saturating_sub(1)
        .saturating_mul(FILES + 1)
        .saturating_add(2)
}

// A line of each client.
fn add_round(job: &mut Job, round: u64) {
    for client in 1..=THREADS {
        add_line(job, client, round);
    }
}

fn add_line(job: &mut Job, client: u64, round: u64) {
    let home = home_of(client);
    let file = job.below(FILES);
    let ino = home.saturating_add(1).saturating_add(file);
    let (line, ino, number) = match job.below(6) {
        0 => ("open # # rw\n", ino, round),
        1 => ("flush # # size #\n", ino, round),
        2 => ("get # # A\n", ino, round),
        3 => ("release # # p\n", ino, round),
        4 => ("want # # pFscr\n", ino, round),
        _ => ("lookup # # file#\n", home, file),
    };
    job.add(line, &[client, ino, number]);
}
