//! Questions on policy, which threads ask of a server beside one that calls events all the time; and the same questions under a
//! lock that its calls take too, so that the one can be compared with the other.

use crate::fault::Fault;
use crate::lines::event_of;
use crate::serving::call;
use capbits::{ClientId, Ino, Mode, PassId};
use capgrant::{Access, Verdict};
use capserver::{CapServer, NoGate, Pass};
use capstep::Event;
use inotree::Setting;
use lockmachine::Change;
use policy_view::{Question, Unknown};
use snapshot::Server;
use std::sync::atomic::{AtomicU64, Ordering};
use std::sync::{Mutex, MutexGuard, Wait};
use std::thread::{Threads, map_vec};

/// Who asks, and who changes modes.
const CLIENT: ClientId = ClientId(1);

/// How far apart two inodes are that follow each other. It shares no divisor with a number of inodes.
const STRIDE: u64 = 7919;

/// The modes that are set by turns.
const MODES: [u16; 2] = [0o700, 0o755];

/// How threads ask questions.
#[derive(Clone, Copy)]
pub(crate) struct Asking {
    /// How many threads ask.
    pub(crate) readers: u32,
    /// How many inodes they ask about, which are numbered from 2 on.
    pub(crate) inodes: u32,
    /// How many questions each of them asks.
    pub(crate) times: u32,
    /// Whether they wait for the thread that calls.
    pub(crate) way: Way,
}

/// How threads ask beside one that calls events.
#[derive(Clone, Copy)]
pub(crate) enum Way {
    /// They ask the server, which takes no lock for a question.
    Beside,
    /// They take a lock for each question, as the thread does that calls for each event.
    Locked,
}

/// Has the last pass call what the lines of a script say, and then change modes until all others have asked their questions, each in a
/// thread of its own. Returns how many questions were answered with yes.
pub(crate) fn explain<L: Server + Send + Sync, T: AllocGlobal + Threads + Wait + Sync>(
    rt: &T,
    server: &CapServer<NoGate, L>,
    mut passes: Vec<Pass<L>>,
    asking: Asking,
    lines: &[&[u8]],
) -> Result<u64, Fault> {
    call_lines(rt, server, passes.last_mut(), lines)?;
    let (done, lock) = (AtomicU64::new(0), Mutex::new(()));
    // It needs threads: where none can be made, nobody asks, and the last pass goes on.
    let work = &|pass: Pass<L>| {
        if pass.number() > PassId(asking.readers) {
            call_while(rt, server, pass, &done, &lock, asking)
        } else {
            Ok(ask(rt, server, pass, &done, &lock, asking))
        }
    };
    match map_vec(rt, passes, work) {
        Ok(sums) => total(sums.as_slice()),
        Err(_) => Err(Fault::NoMemory),
    }
}

// The sum of what all passes came to, where none had a fault.
fn total(sums: &[Result<u64, Fault>]) -> Result<u64, Fault> {
    let mut total: u64 = 0;
    for sum in sums {
        match sum {
            Ok(sum) => total = total.wrapping_add(*sum),
            Err(fault) => return Err(*fault),
        }
    }
    Ok(total)
}

// Takes the lock, where it is to be taken.
fn enter<'a, T: Wait>(rt: &T, lock: &'a Mutex<()>, way: Way) -> Option<MutexGuard<'a, ()>> {
    match way {
        Way::Beside => None,
        Way::Locked => Some(lock.lock(rt)),
    }
}

fn unlock(guard: Option<MutexGuard<()>>) {
    if let Some(guard) = guard {
        MutexGuard::unlock(guard);
    }
}

// An inode for an operation. Those that follow each other come to each inode once before one comes again.
fn inode_at(turn: u32, inodes: u32) -> Ino {
    match (u64::from(turn) * STRIDE).checked_rem(u64::from(inodes)) {
        Some(place) => Ino(place + 2),
        None => Ino(2),
    }
}

// ---- the thread that calls

fn call_lines<L: Server, T: AllocGlobal + Wait>(
    rt: &T,
    server: &CapServer<NoGate, L>,
    pass: Option<&mut Pass<L>>,
    lines: &[&[u8]],
) -> Result<(), Fault> {
    let Some(pass) = pass else {
        return Err(Fault::Usage);
    };
    for line in lines {
        let (_, event) = event_of(rt.alloc(), line)?;
        call_event(rt, server, pass, event)?;
    }
    Ok(())
}

// Changes the mode of one inode after another until all others have asked.
fn call_while<L: Server, T: Wait>(
    rt: &T,
    server: &CapServer<NoGate, L>,
    mut pass: Pass<L>,
    done: &AtomicU64,
    lock: &Mutex<()>,
    asking: Asking,
) -> Result<u64, Fault> {
    let mut turn: u32 = 0;
    for _ in rt.forever() {
        if done.load(Ordering::SeqCst) == u64::from(asking.readers) {
            break;
        }
        let event = mode_change(inode_at(turn, asking.inodes), turn);
        let guard = enter(rt, lock, asking.way);
        let called = call_event(rt, server, &mut pass, event);
        unlock(guard);
        called?;
        turn = turn.wrapping_add(1);
    }
    Ok(0)
}

// Makes an event. What was answered does not matter.
fn call_event<L: Server, T: Wait>(
    rt: &T,
    server: &CapServer<NoGate, L>,
    pass: &mut Pass<L>,
    event: Event,
) -> Result<(), Fault> {
    match call(rt, server, pass, event) {
        Ok(_) => Ok(()),
        Err(stop) => Err(Fault::from(stop)),
    }
}

fn mode_change(ino: Ino, turn: u32) -> Event {
    let Some(mode) = Mode::new(MODES[(turn % 2) as usize]) else {
        unreachable!()
    };
    Event::Alter {
        client: CLIENT,
        ino,
        change: Change::Set(Setting::Mode(mode)),
    }
}

// ---- the threads that ask

// Asks so many questions, says that it is done, and returns how many were answered with yes.
fn ask<L: Server, T: Wait>(
    rt: &T,
    server: &CapServer<NoGate, L>,
    mut pass: Pass<L>,
    done: &AtomicU64,
    lock: &Mutex<()>,
    asking: Asking,
) -> u64 {
    let mut sum: u64 = 0;
    for turn in 0..asking.times {
        // Whether the client may write an inode.
        let question = Question {
            client: CLIENT,
            ino: inode_at(turn, asking.inodes),
            access: Access::Write,
        };
        let guard = enter(rt, lock, asking.way);
        let is_allowed = is_yes(&server.explain(&mut pass, &question));
        unlock(guard);
        sum = sum.wrapping_add(u64::from(is_allowed));
    }
    done.fetch_add(1, Ordering::SeqCst);
    sum
}

fn is_yes(answer: &Result<Verdict, Unknown>) -> bool {
    matches!(answer, Ok(Verdict::Allowed { .. }))
}
