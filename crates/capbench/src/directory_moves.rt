//! Directories with many open files, which an administrator moves out of where their clients may work, and back: the awkward case,
//! since each move is looked at for all that stands below.

use crate::job::{Job, POLL};
use capcore::Core;

/// How many clients have files open.
const CLIENTS: u64 = 20;

/// How many directories are moved.
const FOLDERS: u64 = 40;

/// How many files each has.
const FILES: u64 = 100;

/// How many clients listen after a move.
const LISTENERS: u64 = 4;

/// The lines by which an administrator makes the two directories between which the others are moved.
const PLACES: &str = "session 1 0 0 - allow rwps\nmkdir 1 1 inside 0777\nmkdir 1 1 outside 0777\n";

/// The line that opens a client's session.
const SESSION: &str = "session # # # - allow r path=/pub, allow rw path=/inside\n";

/// The inodes of these two: they are made first.
const INSIDE: u64 = 2;

const OUTSIDE: u64 = 3;

/// Makes the directories, lets the clients in, and moves for so many rounds.
pub(crate) fn move_about(core: &mut Core, job: &mut Job, count: u32) {
    job.add(PLACES, &[]);
    job.add_each(SESSION, &[], 2..CLIENTS + 2);
    make_folders(job);
    let mut are_outside = [false; 40];
    for _ in 0..count {
        let place = job.below(FOLDERS);
        if let Some(is_outside) = are_outside.get_mut(place as usize) {
            *is_outside = !*is_outside;
            move_folder(core, job, place, *is_outside);
        }
    }
}

// Makes the directories with their files, each of which three clients open to read.
fn make_folders(job: &mut Job) {
    for place in 0..FOLDERS {
        job.add("mkdir 1 # folder# 0777\n", &[INSIDE, place]);
        make_files(job, folder_at(place));
    }
}

fn make_files(job: &mut Job, folder: u64) {
    for file in 0..FILES {
        job.add("create 1 # file# 0666\n", &[folder, file]);
        open_file(job, folder.saturating_add(1).saturating_add(file), 3);
    }
}

// The inode of the directory at a place: its files follow it.
fn folder_at(place: u64) -> u64 {
    place.saturating_mul(FILES + 1).saturating_add(OUTSIDE + 1)
}

// This many clients open the file to read.
fn open_file(job: &mut Job, ino: u64, count: u64) {
    for _ in 0..count {
        let client = job.among(2, CLIENTS);
        job.add("open # # r\n", &[client, ino]);
    }
}

// Moves the directory at a place to where it was not. Some clients listen; and where it is back, its files are opened again.
fn move_folder(core: &mut Core, job: &mut Job, place: u64, is_outside: bool) {
    let target = if is_outside { OUTSIDE } else { INSIDE };
    let ino = folder_at(place);
    job.add("rename 1 # # folder#\n", &[ino, target, ino]);
    listen_to_move(core, job);
    if !is_outside {
        open_files(job, ino.saturating_add(1));
    }
}

fn listen_to_move(core: &mut Core, job: &mut Job) {
    for _ in 0..LISTENERS {
        let client = job.among(2, CLIENTS);
        job.add(POLL, &[client]);
        job.play(core);
    }
}

// Each file of a directory, of which this is the first, is opened by two clients.
fn open_files(job: &mut Job, first: u64) {
    for file in 0..FILES {
        open_file(job, first.saturating_add(file), 2);
    }
}
