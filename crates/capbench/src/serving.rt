//! The work on a server: it is started and ended here alone.
ghost use Rattle.std.specs.Prelude.{◌≡◌};
ghost use Rattle.capserver.specs.Opened.{opened};

use crate::explaining::{Asking, explain};
use crate::fault::Fault;
use crate::lines::Transcript;
use crate::publishing::publish;
use capscript::file_system;
use capserver::{Answer, CapServer, NoGate, Opening, Pass, StartFault};
use capstep::stop::Stop;
use capstep::{Event, Row};
use snapshot::Server;
use std::io::Write;
use std::marker::Brand;
use std::sync::Wait;
use std::sync::ledger::Blank;
use std::thread::Threads;

/// What is done with a server.
#[derive(Clone, Copy)]
pub(crate) enum ServerWork {
    /// One pass calls what a script says, and again what finds no memory; two ask what came of each call. The history takes so many rows.
    Publish(u32),
    /// Threads ask questions on policy, while another thread calls events.
    Explain(Asking),
}

/// Starts a server on a root alone, does the work by its passes, and ends it. The sum is that of the questions that were answered with yes,
/// or else that of the rows of the history.
pub(crate) fn serve<T: AllocGlobal + Threads + Wait + Sync, W: Write>(
    rt: &T,
    work: ServerWork,
    lines: &[&[u8]],
    writer: &mut W,
) -> Result<u64, Fault> {
    let max_rows = match work {
        ServerWork::Publish(max_rows) => max_rows,
        ServerWork::Explain(_) => u32::MAX,
    };
    let (fs, tree) = file_system(rt.alloc())?;
    let opening = Opening::new(rt.alloc(), fs, tree, max_rows)?;
    served::<Brand, T, W>(rt, opening, Blank::new(32), work, lines, writer)
}

// No other function owns a server: what it keeps is carried through each way out of its owner.
fn served<L: Server + Send + Sync, T: AllocGlobal + Threads + Wait + Sync, W: Write>(
    rt: &T,
    opening: Opening,
    blank: Blank,
    work: ServerWork,
    lines: &[&[u8]],
    writer: &mut W,
) -> Result<u64, Fault>
    requires opening { opening ≡ opened L.opening L.max_rows L.history L.tally }
    requires name { blank.name ≡ L.name }
    requires parts { (blank.parts ≡ L.parts) × (L.parts ≡ 32) }
{
    let (alloc, count) = (rt.alloc(), passes_for(work));
    let started = CapServer::<NoGate, L>::start(rt, alloc, opening, blank, count, NoGate);
    let (server, passes) = match started {
        Ok(started) => started,
        Err(fault) => return Err(why_not_started(fault)),
    };
    let mut transcript = Transcript::new(alloc, writer);
    let sum = ask(rt, &server, passes, work, lines, &mut transcript);
    let closed = server.close(rt, Vec::new(alloc));
    let sum = sum_of(sum, closed.core.history(), &mut transcript);
    drop(closed);
    sum
}

// How many passes there are: one calls, and the others ask alone.
fn passes_for(work: ServerWork) -> u32 {
    match work {
        ServerWork::Publish(_) => 2,
        ServerWork::Explain(asking) => asking.readers.saturating_add(1),
    }
}

// The words ask for more passes than a server has, or there was no memory.
fn why_not_started(fault: StartFault) -> Fault {
    match fault {
        StartFault::BadCount => Fault::Usage,
        StartFault::NoMemory | StartFault::NoReader => Fault::NoMemory,
    }
}

// Has the passes of a server call and ask. The sum is that of the questions that were answered with yes; there is none of what is published.
fn ask<L: Server + Send + Sync, T: AllocGlobal + Threads + Wait + Sync, W: Write>(
    rt: &T,
    server: &CapServer<NoGate, L>,
    passes: Vec<Pass<L>>,
    work: ServerWork,
    lines: &[&[u8]],
    transcript: &mut Transcript<'_, W>,
) -> Option<Result<u64, Fault>> {
    let mut passes = passes;
    match work {
        ServerWork::Explain(asking) => Some(explain(rt, server, passes, asking, lines)),
        ServerWork::Publish(_) => {
            for line in lines {
                publish(rt, server, passes.as_mut_slice(), line, transcript);
            }
            None
        }
    }
}

// The sum, or else that of the rows of the history, which are written.
fn sum_of<W: Write>(
    sum: Option<Result<u64, Fault>>,
    rows: &[Row],
    transcript: &mut Transcript<'_, W>,
) -> Result<u64, Fault> {
    match sum {
        Some(sum) => sum,
        None => {
            transcript.tell_rows(rows);
            transcript.end(rows.len() as u64)
        }
    }
}

/// Calls an event. What the server promises of an answer stays behind here.
pub(crate) fn call<L: Server, T: Wait>(
    rt: &T,
    server: &CapServer<NoGate, L>,
    pass: &mut Pass<L>,
    event: Event,
) -> Result<Answer, Stop> {
    server.call(rt, pass, event)
}
