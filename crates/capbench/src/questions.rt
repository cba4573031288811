//! Questions of policy, each with grants, a caller and an inode of its own.

use crate::fault::Fault;
use crate::job::Job;
use crate::jobs::Amount;
use crate::lines::lines_of;
use queries::{Question, Values};
use std::alloc::{AllocError, Global};

/// The file system of each question.
const FS: &[u8] = b"cephfs";

/// How many directories can stand in each.
const NAMES: u64 = 4;

/// The users of callers and of owners, the first of them, and how many they are.
const USERS: &[&[u8]] = &[b"1000", b"1001", b"1002", b"1003", b"1004", b"1005"];

const FIRST_USER: u64 = 1000;

const USER_COUNT: u64 = 6;

const MODES: &[&[u8]] = &[
    b"0040", b"0141", b"0242", b"0343", b"0444", b"0545", b"0646", b"0747",
];

/// What can be asked for.
const ACCESSES: &[&[u8]] = &[
    b"read",
    b"write",
    b"vxattr",
    b"snapshot",
    b"chmod",
    b"chown:1002",
];

/// How many texts of grants, and how many paths, are made before the first question.
const TEXTS: u64 = 1024;

/// Answers so many questions, and returns the digest of the answers.
pub(crate) fn ask_all(alloc: Global, amount: Amount) -> Result<u64, Fault> {
    let mut job = Job::new(alloc, amount.seed);
    write_texts(&mut job);
    let script = job.script()?;
    let texts = lines_of(alloc, script.as_slice())?;
    let mut values = first_values(alloc)?;
    ask_often(&mut job, texts.as_slice(), &mut values, amount.count);
    job.digest()
}

// Texts of grants and paths, by turns, a line each.
fn write_texts(job: &mut Job) {
    for _ in 0..TEXTS {
        write_grants(job);
        write_path(job);
        job.add("\n", &[]);
    }
}

// One to sixteen grants, most of them few.
fn write_grants(job: &mut Job) {
    job.add("allow r path=/pub", &[]);
    let most = job.below(15);
    for _ in 0..job.below(most) {
        write_grant(job);
    }
    job.add("\n", &[]);
}

fn write_grant(job: &mut Job) {
    let kind = job.below(4);
    let front = match kind {
        0 => ", allow r path=",
        1 => ", allow rwp path=",
        _ => ", allow rw path=",
    };
    job.add(front, &[]);
    write_path(job);
    match kind {
        2 => job.add(" root_squash", &[]),
        3 => {
            let user = job.among(FIRST_USER, USER_COUNT);
            job.add(" uid=# gids=#,1001", &[user, user]);
        }
        _ => {}
    }
}

fn write_path(job: &mut Job) {
    for _ in 0..job.among(1, 7) {
        let name = job.below(NAMES);
        job.add("/directory#", &[name]);
    }
}

fn ask_often(job: &mut Job, texts: &[&[u8]], values: &mut Values, count: u32) {
    for _ in 0..count {
        choose_texts(job, texts, values);
        choose_words(job, values);
        let answer = answer(job.alloc(), values);
        job.take(answer);
    }
}

// The answer to a question. What is promised of it stays behind here.
fn answer(alloc: Global, values: &Values) -> Result<Vec<u8>, Fault> {
    Ok(Question::read(alloc, values)?.answer(alloc)?)
}

// Values without a byte, but for the file system.
fn first_values(alloc: Global) -> Result<Values, AllocError> {
    Ok(Values {
        fs: Vec::from_slice(alloc, FS)?,
        grants: Vec::new(alloc),
        uid: Vec::new(alloc),
        gid: Vec::new(alloc),
        groups: Some(Vec::new(alloc)),
        path: Vec::new(alloc),
        owner: Vec::new(alloc),
        group: Vec::new(alloc),
        mode: Vec::new(alloc),
        access: Vec::new(alloc),
        addr: None,
    })
}

// The grants of a question, and its path.
fn choose_texts(job: &mut Job, texts: &[&[u8]], values: &mut Values) {
    let grants = job.below(TEXTS).saturating_mul(2);
    put_word(job, texts, grants, &mut values.grants);
    let path = job.below(TEXTS).saturating_mul(2).saturating_add(1);
    put_word(job, texts, path, &mut values.path);
}

// The mode and the access, and the numbers of the caller and of the owner.
fn choose_words(job: &mut Job, values: &mut Values) {
    let users = USERS;
    choose(job, MODES, &mut values.mode);
    choose(job, ACCESSES, &mut values.access);
    choose(job, users, &mut values.uid);
    choose(job, users, &mut values.gid);
    choose(job, users, &mut values.owner);
    choose(job, users, &mut values.group);
    if let Some(groups) = &mut values.groups {
        choose(job, users, groups);
    }
}

// One of the words, in the place of another.
fn choose(job: &mut Job, words: &[&[u8]], place: &mut Vec<u8>) {
    let number = job.below(words.len() as u64);
    put_word(job, words, number, place);
}

// The word of a number, in the place of another.
fn put_word(job: &mut Job, words: &[&[u8]], number: u64, place: &mut Vec<u8>) {
    place.clear();
    if let Some(word) = words.get(number as usize)
        && place.extend_from_slice(word).is_err()
    {
        job.fail(Fault::NoMemory);
    }
}
