//! Three passes: one calls and is held at the gate, under the lock; another one calls meanwhile, and waits for the lock; the third one asks.
//! It is answered at once, by what was published before. When both calls have ended it sees what they made.
ghost use Rattle.std.specs.Prelude.{◌≡◌};
ghost use Rattle.capserver.specs.Opened.{opened};

use crate::asking::event;
use crate::asserting::{made, present, same};
use capbits::{ClientId, Ino, PassId};
use capgrant::{Access, Verdict};
use capscript::file_system;
use capserver::{CapServer, Gate, Opening, Pass, StartFault};
use capstep::Reply;
use policy_view::{Question, Unknown};
use snapshot::Server;
use std::alloc::{AllocError, Global};
use std::marker::Brand;
use std::process::Abort;
use std::sync::Wait;
use std::sync::atomic::{AtomicU64, Ordering};
use std::sync::ledger::Blank;
use std::thread::{Threads, map_vec, yield_now};

// How often a thread yields while it waits for another one.
const TURNS: u32 = 1_000_000;

// How often it yields so that a call which is not held up would come to the gate.
const A_WHILE: u32 = 1000;

// What the threads tell each other.
#[derive(Drop)]
struct Signs {
    // How many calls are to be made beside each other, and have begun.
    begun: AtomicU64,
    // How many calls have come to the gate.
    entered: AtomicU64,
    // How many of those beside each other have ended.
    ended: AtomicU64,
    // 1 while the gate lets calls go on.
    open: AtomicU64,
    // 1 where somebody waited for too many turns.
    late: AtomicU64,
}

impl Signs {
    fn new() -> Signs {
        Signs {
            begun: AtomicU64::new(0),
            entered: AtomicU64::new(0),
            ended: AtomicU64::new(0),
            open: AtomicU64::new(1),
            late: AtomicU64::new(0),
        }
    }

    // Waits until a sign has come to a number, or for too long.
    fn wait_for(&self, sign: &AtomicU64, number: u64) {
        for _ in 0..TURNS {
            if sign.load(Ordering::SeqCst) >= number {
                return;
            }
            yield_now();
        }
        self.late.store(1, Ordering::SeqCst);
    }
}

// A gate that holds calls while it is not open.
#[derive(Drop)]
struct Hold<'a> {
    signs: &'a Signs,
}

impl Gate for Hold<'_> {
    fn pause<R: Wait>(&self, _rt: &R) {
        self.signs.entered.fetch_add(1, Ordering::SeqCst);
        self.signs.wait_for(&self.signs.open, 1);
    }
}

// Calls the event that a line says, which is done, and published at once.
fn call<L: Server, R: Abort + AllocGlobal + Wait>(
    rt: &R,
    server: &CapServer<Hold<'_>, L>,
    pass: &mut Pass<L>,
    line: &str,
) {
    let answer = made(rt, server.call(rt, pass, event(rt, rt.alloc(), line)), line);
    let is_done = matches!(answer.reply, Reply::Done | Reply::Ino(_));
    same(rt, (is_done, answer.fresh), (true, true), line);
}

// Whether client 1 may read an inode.
fn ask<L: Server>(server: &CapServer<Hold<'_>, L>, pass: &mut Pass<L>, ino: u64) -> &'static str {
    let question = Question {
        client: ClientId(1),
        ino: Ino(ino),
        access: Access::Read,
    };
    match server.explain(pass, &question) {
        Ok(Verdict::Allowed { .. }) => "allowed",
        Err(Unknown::NoIno) => "no inode",
        _ => "otherwise",
    }
}

// Asks about the root and the first file while the call that makes that is held and another one has begun. Then it opens the gate, and asks about
// both files when the calls have ended.
fn ask_meanwhile<L: Server>(
    rt: &impl Abort,
    server: &CapServer<Hold<'_>, L>,
    signs: &Signs,
    pass: &mut Pass<L>,
) {
    signs.wait_for(&signs.begun, 2);
    signs.wait_for(&signs.entered, 1);
    for _ in 0..A_WHILE {
        yield_now();
    }
    let answers = [ask(server, pass, 1), ask(server, pass, 2)];
    let entered = signs.entered.load(Ordering::SeqCst);
    signs.open.store(1, Ordering::SeqCst);
    signs.wait_for(&signs.ended, 2);
    let afterwards = [ask(server, pass, 2), ask(server, pass, 3)];
    same(rt, answers, ["allowed", "no inode"], "beside a held call");
    same(rt, entered, 1, "calls at the gate");
    same(rt, afterwards, ["allowed", "allowed"], "behind both calls");
}

// Pass 1 and pass 2 each make a file, and pass 3 asks.
fn act<L: Server, R: Abort + AllocGlobal + Wait>(
    rt: &R,
    server: &CapServer<Hold<'_>, L>,
    signs: &Signs,
    mut pass: Pass<L>,
) {
    let line = match pass.number() {
        PassId(1) => "create 1 1 f 0644",
        PassId(2) => "create 1 1 g 0644",
        _ => return ask_meanwhile(rt, server, signs, &mut pass),
    };
    signs.begun.fetch_add(1, Ordering::SeqCst);
    call(rt, server, &mut pass, line);
    signs.ended.fetch_add(1, Ordering::SeqCst);
}

// Opens a session, closes the gate, and has the passes call and ask beside each other.
fn see_beside<L: Server + Send + Sync, R: Abort + AllocGlobal + Threads + Wait + Sync>(
    rt: &R,
    server: &CapServer<Hold<'_>, L>,
    signs: &Signs,
    mut passes: Vec<Pass<L>>,
) {
    let one = present(rt, passes.first_mut(), "pass 1");
    call(rt, server, one, "session 1 10 10 - allow rw");
    signs.entered.store(0, Ordering::SeqCst);
    signs.open.store(0, Ordering::SeqCst);
    let acted = map_vec(rt, passes, &|pass: Pass<L>| act(rt, server, signs, pass));
    same(rt, acted.is_ok(), true, "threads");
    same(rt, signs.late.load(Ordering::SeqCst), 0, "late");
}

// An opening on a root alone.
fn opening(alloc: Global) -> Result<Opening, AllocError> {
    let (fs, tree) = file_system(alloc)?;
    Opening::new(alloc, fs, tree, u32::MAX)
}

// Starts a server of so many passes, sees them beside each other, and says how many rows are left.
fn served<L: Server + Send + Sync, R: AllocGlobal + Abort + Threads + Wait + Sync>(
    rt: &R,
    opening: Opening,
    blank: Blank,
    count: u32,
    signs: &Signs,
) -> Result<usize, StartFault>
    requires opening { opening ≡ opened L.opening L.max_rows L.history L.tally }
    requires name { blank.name ≡ L.name }
    requires parts { (blank.parts ≡ L.parts) × (L.parts ≡ 32) }
{
    let alloc = rt.alloc();
    let gate = Hold { signs };
    let (server, passes) = CapServer::<Hold<'_>, L>::start(rt, alloc, opening, blank, count, gate)?;
    see_beside(rt, &server, signs, passes);
    let closed = server.close(rt, Vec::new(alloc));
    let rows = closed.core.history().len();
    drop(closed);
    Ok(rows)
}

// The same of a server on a root alone.
fn rows_by<R: AllocGlobal + Abort + Threads + Wait + Sync>(
    rt: &R,
    count: u32,
    signs: &Signs,
) -> Result<usize, StartFault> {
    let Ok(opening) = opening(rt.alloc()) else {
        return Err(StartFault::NoMemory);
    };
    served::<Brand, R>(rt, opening, Blank::new(32), count, signs)
}

#[test]
fn a_question_is_answered_beside_a_held_call(rt: HostRuntime) {
    let signs = Signs::new();
    let rows = rows_by(&rt, 3, &signs);
    same(&rt, matches!(rows, Ok(3)), true, "rows");
}

#[test]
fn a_server_has_one_to_thirty_two_passes(rt: HostRuntime) {
    for count in [0, 33] {
        let signs = Signs::new();
        let rows = rows_by(&rt, count, &signs);
        same(&rt, matches!(rows, Err(StartFault::BadCount)), true, count);
    }
}
