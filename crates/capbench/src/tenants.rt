//! Tenants that each have a directory of their own, in which they make, open, change and close files; now and then one tries what
//! is not its own.

use crate::job::{Heard, Job, POLL};
use capcore::Core;

/// How many tenants there are.
const TENANTS: u64 = 48;

/// How many directories each makes in its own.
const FOLDERS: u64 = 8;

/// The lines that open a tenant's session, by grants of three kinds. Their numbers are the client, twice its user, the tenant's own, and
/// twice the user again.
const BY_PATH: &str = "session # # # - allow rw path=/tenant#\n";

const BY_USER: &str =
    "session # # # 100,200 allow r path=/pub, allow rw path=/tenant# uid=# gids=#,100\n";

const SQUASHED: &str =
    "session # # # 100 allow r path=/pub, allow rw path=/scratch root_squash, allow rwps path=/tenant#\n";

/// A tenant, with its directory, whose own directories follow it, and the files that it made.
struct Tenant {
    client: u64,
    home: u64,
    files: Vec<File>,
}

// Not derived: so the proof of a function that drops one has a single call there.
impl Drop for Tenant {
    fn drop(self) {
        let Tenant {
            client: _,
            home: _,
            files: _,
        } = self;
    }
}

/// A file of a tenant.
#[derive(Clone, Copy)]
struct File {
    ino: u64,
    folder: u64,
    name: u64,
}

/// Gives each tenant its directory, and has them work for so many rounds.
pub(crate) fn serve_tenants(core: &mut Core, job: &mut Job, count: u32) {
    let mut tenants = let_all_in(job);
    for turn in 0..u64::from(count) {
        let place = job.below(TENANTS);
        if let Some(tenant) = tenants.get_mut(place as usize) {
            work(core, job, tenant, turn);
        }
    }
}

fn let_all_in(job: &mut Job) -> Vec<Tenant> {
    job.add("session 1 0 0 - allow rwps\n", &[]);
    let mut tenants = Vec::new(job.alloc());
    for number in 0..TENANTS {
        let tenant = let_in(job, number);
        job.keep(&mut tenants, tenant);
    }
    tenants
}

// Lets a tenant in, by grants of one of three kinds: its directory is made, and it makes some in that.
fn let_in(job: &mut Job, number: u64) -> Tenant {
    let client = number.saturating_add(2);
    let user = number.saturating_add(1000);
    let home = number.saturating_mul(FOLDERS + 1).saturating_add(2);
    let session = match number % 3 {
        0 => BY_PATH,
        1 => BY_USER,
        _ => SQUASHED,
    };
    job.add("mkdir 1 1 tenant# 0777\n", &[number]);
    job.add(session, &[client, user, user, number, user, user]);
    job.add_each("mkdir # # folder# 0755\n", &[client, home], 0..FOLDERS);
    Tenant {
        client,
        home,
        files: Vec::new(job.alloc()),
    }
}

// What a tenant began its round with.
#[derive(Clone, Copy)]
enum Begun {
    // To make a file of this name in a directory.
    Making { folder: u64, name: u64 },
    // To move the file at a place into a directory.
    Moving { place: usize, folder: u64 },
    Using,
}

// One round of a tenant: one request or a few, and what it is told of then.
fn work(core: &mut Core, job: &mut Job, tenant: &mut Tenant, turn: u64) {
    let dice = job.below(100);
    let begun = begin(job, tenant, dice, turn);
    let heard = job.play(core);
    go_on(job, tenant, begun, heard);
    if dice % 4 == 0 {
        job.add(POLL, &[tenant.client]);
    }
    job.play(core);
}

fn begin(job: &mut Job, tenant: &Tenant, dice: u64, turn: u64) -> Begun {
    let place = job.below(tenant.files.len() as u64) as usize;
    match tenant.files.get(place).copied() {
        Some(file) if dice == 82 => Begun::Moving {
            place,
            folder: move_file(job, tenant, file),
        },
        Some(file) if dice < 85 => {
            use_file(job, tenant.client, file, dice);
            Begun::Using
        }
        _ => Begun::Making {
            folder: make_file(job, tenant, turn),
            name: turn,
        },
    }
}

// Makes a file in one of the tenant's directories, which is returned.
fn make_file(job: &mut Job, tenant: &Tenant, name: u64) -> u64 {
    let folder = job.among(tenant.home.saturating_add(1), FOLDERS);
    job.add("create # # file# 0644\n", &[tenant.client, folder, name]);
    folder
}

// Moves a file into another directory of the tenant's, which is returned.
fn move_file(job: &mut Job, tenant: &Tenant, file: File) -> u64 {
    let folder = job.among(tenant.home.saturating_add(1), FOLDERS);
    job.add(
        "rename # # # file#\n",
        &[tenant.client, file.ino, folder, file.name],
    );
    folder
}

// Opens the file that was made, to write, or keeps where a file stands.
fn go_on(job: &mut Job, tenant: &mut Tenant, begun: Begun, heard: Heard) {
    match (begun, heard) {
        (Begun::Making { folder, name }, Heard::Ino(ino)) => {
            job.keep(&mut tenant.files, File { ino, folder, name });
            job.add("open # # rw\n", &[tenant.client, ino]);
        }
        (Begun::Moving { place, folder }, Heard::Done) => {
            if let Some(file) = tenant.files.get_mut(place) {
                file.folder = folder;
            }
        }
        _ => {}
    }
}

// Uses a file of its own, or now and then one that is not.
fn use_file(job: &mut Job, client: u64, file: File, dice: u64) {
    let File { ino, folder, name } = file;
    let (line, ino) = match dice {
        0..25 => ("lookup # # file#\n", folder),
        25..45 => ("open # # r\n", ino),
        45..50 => ("open # # rw\n", ino),
        50..60 => ("want # # pAsLsXsFsr\n", ino),
        60..70 => ("release # # p\n", ino),
        70..80 => return change_file(job, client, ino, dice),
        80..82 => ("get # # A\n", ino),
        83 => ("open # # r\n", ino / 2),
        _ => ("alter # # chmod 0700\n", 1),
    };
    job.add(line, &[client, ino, name]);
}

fn change_file(job: &mut Job, client: u64, ino: u64, dice: u64) {
    let value = job.below(1 << 20);
    let (line, number) = match dice % 4 {
        0 => ("alter # # size #\n", value),
        1 => ("alter # # times #\n", value),
        2 => ("alter # # chmod 0664\n", value),
        _ => ("alter # # setx user.mark# 0123abcd\n", value % 8),
    };
    job.add(line, &[client, ino, number]);
}
