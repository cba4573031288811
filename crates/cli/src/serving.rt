//! Serving a script: what its lines call is called by the passes of a server, and the history of that is written.
ghost use Rattle.std.specs.Prelude.{◌≡◌, ◌≢◌, ◌<◌, ◌≤◌, ◌+◌, ◌⊎◌, ◌↔◌, ℕ, List, Err, length, vec_len, IfOk, IfErr, IfSome, OnErr, IsTrue, IsFalse};
ghost use Rattle.std.specs.Io.KnownBytes.{Appends, Keeps};
ghost use Rattle.capstep.specs.History.{IsLegal};
ghost use Rattle.capstep.specs.declared.stop.Stop.TheVariants as stop_kind;
ghost use Rattle.capserver.specs.Opened.{opened};
ghost use Rattle.texts.specs.ScriptLines.{lines, longest_script};
ghost use Rattle.texts.specs.declared.fault.ScriptFault.TheVariants as stops;
ghost use Rattle.texts.specs.Watched.{has_ended, has_failed, inner_of};
ghost use Rattle.cli.specs.declared.serve_fault.ServeFault.TheVariants as faults;
ghost use Rattle.cli.specs.Jobs.{event_count, work_of};
ghost use Rattle.cli.specs.Served.{IsCutShort, IsHistory, IsServed, IsUnserved, IsWritten, most_rows};

use crate::calling::{Called, call_all};
use crate::history_text::history_lines;
use crate::plan::{Plan, read_plan};
use crate::serve_fault::ServeFault;
use capcore::Core;
use capscript::file_system;
use capserver::{CapServer, Closed, Gate, NoGate, Opening};
use capstep::stop::Stop;
use snapshot::Server;
use std::alloc::Global;
use std::io::{Read, Write};
use std::marker::Brand;
use std::sync::Wait;
use std::sync::ledger::Blank;
use std::thread::Threads;
use texts::{Watched, read_script, write_text};

// How many rows the history of a script takes at most.
const MAX_ROWS: u32 = u32::MAX;

/// Reads a whole script, serves it on a root alone, and writes the line of each row of the history, in order. Where a line has a fault
/// nothing is called, and where an event is not answered nothing is written.
pub fn serve<T: Threads + Wait + Sync, R: Read, W: Write>(
    rt: &T,
    alloc: Global,
    reader: &mut Watched<R>,
    writer: &mut Watched<W>,
) -> Result<(), ServeFault>
    requires reader_clear { IsFalse (has_failed reader.old) }
    requires reader_unended { IsFalse (has_ended reader.old) }
    requires writer_clear { IsFalse (has_failed writer.old) }
    // What was written, where it is known what there was to read.
    ensures written { IfSome (R.remaining (inner_of reader.old)) (λ script. (text : List ℕ)
        × IsWritten (lines script) result text
        × Appends (W.contents (inner_of writer.old)) (W.contents (inner_of writer.new)) text) }
    // Unless it was a write that failed, a fault comes before anything is written.
    ensures err { OnErr result ((result ≡ Err (faults.Script stops.WriteFault))
        ⊎ Keeps (W.contents (inner_of writer.old)) (W.contents (inner_of writer.new))) }
    // A read that failed is told. ReadFault comes only of that and of a script that is too long.
    ensures read_failed { IsTrue (has_failed reader.new) → result ≡ Err (faults.Script stops.ReadFault) }
    ensures read { result ≡ Err (faults.Script stops.ReadFault)
        → IsTrue (has_failed reader.new)
        ⊎ IfSome (R.remaining (inner_of reader.old)) (λ script. longest_script < length script) }
    // A script that is too long is not served; memory may run out on the way to its end.
    ensures long { IfSome (R.remaining (inner_of reader.old)) (λ script. longest_script < length script
        → (result ≡ Err (faults.Script stops.ReadFault)) ⊎ (result ≡ Err (faults.Script stops.NoMemory))) }
    // A write that failed is told, and only that.
    ensures write_failed { (result ≡ Err (faults.Script stops.WriteFault)) ↔ IsTrue (has_failed writer.new) }
{
    match read_script(alloc, reader) {
        Ok(script) => serve_whole(rt, alloc, script, writer),
        Err(fault) => Err(ServeFault::Script(fault)),
    }
}

// Serves a script that was read, and writes the history.
fn serve_whole<T: Threads + Wait + Sync, W: Write>(
    rt: &T,
    alloc: Global,
    script: Vec<u8>,
    writer: &mut Watched<W>,
) -> Result<(), ServeFault>
    requires short { length script.items ≤ longest_script }
    requires clear { IsFalse (has_failed writer.old) }
    ensures written { (text : List ℕ)
        × IsWritten (lines script.items) result text
        × Appends (W.contents (inner_of writer.old)) (W.contents (inner_of writer.new)) text }
    ensures err { OnErr result ((result ≡ Err (faults.Script stops.WriteFault))
        ⊎ Keeps (W.contents (inner_of writer.old)) (W.contents (inner_of writer.new))) }
    ensures read { result ≢ Err (faults.Script stops.ReadFault) }
    ensures write_failed { (result ≡ Err (faults.Script stops.WriteFault)) ↔ IsTrue (has_failed writer.new) }
{
    let text = serve_text(rt, alloc, script.as_slice())?;
    write_text(writer, text.as_slice())?;
    Ok(())
}

// What there is to write of a script.
fn serve_text<T: Threads + Wait + Sync>(
    rt: &T,
    alloc: Global,
    script: &[u8],
) -> Result<Vec<u8>, ServeFault>
    requires short { length script.now ≤ longest_script }
    ensures text { IfOk result (λ text. IsServed (lines script.now) text.items) }
    ensures err { IfErr result (IsUnserved (lines script.now)) }
{
    let plan = read_plan(alloc, script)?;
    let core = serve_plan(rt, alloc, plan, NoGate)?;
    let text = history_lines(alloc, core.history());
    drop(core);
    Ok(text?)
}

/// Serves a plan on a root alone: its first events by pass 1, then each client's by a thread and a pass of its own, numbered 2, 3 and so on
/// in the order of the jobs. The core is answered when all threads have ended. It has as many rows as the plan has events.
pub fn serve_plan<T: Threads + Wait + Sync, G: Gate + Send + Sync>(
    rt: &T,
    alloc: Global,
    plan: Plan,
    gate: G,
) -> Result<Core, ServeFault>
    requires few { vec_len plan.jobs ≤ 31 }
    ensures served { IfOk result (λ core. IsHistory (work_of plan) core.rows core.state) }
    ensures err { IfErr result (IsCutShort (event_count (work_of plan))) }
{
    let (fs, tree) = file_system(alloc)?;
    let opening = Opening::new(alloc, fs, tree, MAX_ROWS)?;
    let core = served::<Brand, G, T>(rt, alloc, opening, Blank::new(32), gate, plan)?;
    Ok(core)
}

fn served<L: Server + Send + Sync, G: Gate + Send + Sync, T: Threads + Wait + Sync>(
    rt: &T,
    alloc: Global,
    opening: Opening,
    blank: Blank,
    gate: G,
    plan: Plan,
) -> Result<Core, ServeFault>
    requires opening { opening ≡ opened L.opening L.max_rows L.history L.tally }
    requires name { blank.name ≡ L.name }
    requires parts { (blank.parts ≡ L.parts) × (L.parts ≡ 32) }
    requires few { vec_len plan.jobs ≤ 31 }
    ensures legal { IfOk result (λ core. IsLegal L.opening core.rows core.state) }
    ensures counted { IfOk result (λ core. length core.rows ≡ event_count (work_of plan)) }
    ensures err { IfErr result (IsCutShort (event_count (work_of plan))) }
{
    // One pass more than there are clients.
    let count = plan.jobs.len() as u32 + 1;
    let Ok((server, passes)) = CapServer::<G, L>::start(rt, alloc, opening, blank, count, gate)
    else {
        return Err(ServeFault::from(Stop::NoMemory));
    };
    match call_all(rt, alloc, &server, passes, plan) {
        Ok(Called { passes, answered }) => {
            let Closed { core } = server.close(rt, passes);
            if answered {
                Ok(core)
            } else {
                Err(ServeFault::from(why_stopped(core)))
            }
        }
        Err(missing) => {
            let closed = server.close(rt, Vec::new(alloc));
            drop(closed);
            Err(missing)
        }
    }
}

// Why not all events were answered: the history has as many rows as it may have, or memory was missing.
fn why_stopped(core: Core) -> Stop
    ensures { result ≡ stop_kind.Full → most_rows ≤ length core.rows }
{
    if core.history().len() >= MAX_ROWS as usize {
        Stop::Full
    } else {
        Stop::NoMemory
    }
}
