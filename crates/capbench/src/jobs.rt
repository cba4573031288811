//! The jobs.

use crate::directory_moves::move_about;
use crate::fault::Fault;
use crate::job::Job;
use crate::questions::ask_all;
use crate::scripts::{run_script, serve_script};
use crate::shared_files::share;
use crate::tenants::serve_tenants;
use capcore::Core;
use capscript::file_system;
use std::alloc::Global;
use std::sync::Wait;
use std::thread::Threads;

/// How much work is done, and the seed that it is made from.
#[derive(Clone, Copy)]
pub struct Amount {
    /// How often: each job says of what.
    pub count: u32,
    /// What it is made from.
    pub seed: u32,
}

/// What the clients of a core do.
#[derive(Clone, Copy)]
pub(crate) enum Play {
    /// Each works in a directory of its own.
    Tenants,
    /// All work on the same files.
    Shared,
    /// Directories with open files are moved out of where their clients may work, and back.
    Moves,
}

/// A job.
#[derive(Clone, Copy)]
pub(crate) enum JobKind {
    /// Clients talk to a core.
    Played(Play),
    /// A whole script is run.
    Script,
    /// Questions are asked on policy.
    Questions,
    /// A whole script is served, whose clients call from threads of their own.
    Serve,
}

/// Does a job, and returns the digest of all that was answered.
pub(crate) fn digest_of(
    rt: &(impl AllocGlobal + Threads + Wait + Sync),
    job: JobKind,
    amount: Amount,
) -> Result<u64, Fault> {
    match job {
        JobKind::Played(play) => play_rounds(rt.alloc(), play, amount),
        JobKind::Script => run_script(rt.alloc(), amount),
        JobKind::Questions => ask_all(rt.alloc(), amount),
        JobKind::Serve => serve_script(rt, amount),
    }
}

// Has clients talk to a core in so many rounds. No other function owns a core: what it keeps is carried through each way out of its owner.
fn play_rounds(alloc: Global, play: Play, amount: Amount) -> Result<u64, Fault> {
    let (fs, tree) = file_system(alloc)?;
    let mut core = Core::new(alloc, fs, tree, u32::MAX)?;
    let digest = play_on(alloc, &mut core, play, amount);
    drop(core);
    digest
}

fn play_on(alloc: Global, core: &mut Core, play: Play, amount: Amount) -> Result<u64, Fault> {
    let mut job = Job::new(alloc, amount.seed);
    match play {
        Play::Tenants => serve_tenants(core, &mut job, amount.count),
        Play::Shared => share(core, &mut job, amount.count),
        Play::Moves => move_about(core, &mut job, amount.count),
    }
    job.play(core);
    job.digest()
}
