//! The commands of the program, over streams that the caller passes.
ghost use Rattle.std.specs.Prelude.{◌≡◌, ◌≤◌, ◌⊎◌, ℕ, List, length, option_map, OnOk, IfOk, IfErr, IfSome, IsFalse};
ghost use Rattle.std.specs.Io.KnownBytes.{Appends, Keeps};
ghost use Rattle.texts.specs.declared.fault.ScriptFault.{ScriptFault as AScriptFault};
ghost use Rattle.texts.specs.ScriptLines.{lines, longest_script};
ghost use Rattle.capscript.specs.Transcript.{IsTranscript};
ghost use Rattle.texts.specs.Watched.{has_blocked, has_ended, has_failed, inner_of};
ghost use Rattle.cli.specs.declared.serve_fault.ServeFault.{ServeFault as AServeFault};
ghost use Rattle.cli.specs.Served.{IsServed};
ghost use Rattle.cli.specs.declared.stopping.Fault.{Fault as AFault};
ghost use Rattle.cli.specs.declared.stopping.Fault.TheVariants as faults;
ghost use Rattle.cli.specs.Commands.{Answers, RunStops, ServeStops, Stops, WasDone};
ghost use Rattle.cli_queries.specs.FileSystems.{KnowsNames, Notes};
ghost use Rattle.cli.specs.Hints.{hint_of, hint_unread};

use crate::serve_fault::ServeFault;
use crate::serving::serve;
use crate::stopping::Fault;
use capscript::run;
use cli_queries::{
    ComparedBy, DENIED, DONE, FAILED, FOUND, Invocation, USAGE, audit, compare_texts, explain,
    gather, grants, keyring_file, lint, log, note, read_words, report, show, who,
};
use queries::LogScope;
use std::alloc::Global;
use std::fs::Files;
use std::io::{Read, Write};
use std::sync::Wait;
use std::thread::Threads;
use texts::{ScriptFault, Watched};

/// Does what the words behind the program's name ask for, and returns the status. Neither stream was read or written to yet. What is
/// wrong is written to `faults`; where that fails, nothing else can be said, and the status stays.
pub fn dispatch<E: AllocGlobal + Files + Threads + Wait + Sync, R: Read, W: Write, F: Write>(
    rt: &E,
    words: &[Vec<u8>],
    reader: &mut Watched<R>,
    writer: &mut Watched<W>,
    faults: &mut F,
) -> u8
    requires reader_clear { IsFalse (has_failed reader.old) }
    requires reader_unended { IsFalse (has_ended reader.old) }
    requires writer_clear { IsFalse (has_failed writer.old) }
    ensures status { result ≤ DENIED }
    ensures usage { result ≡ USAGE → Keeps (W.contents (inner_of writer.old)) (W.contents (inner_of writer.new)) }
    // What was written where the work was done.
    ensures answered { (result ≡ DONE) ⊎ (result ≡ DENIED) → WasDone (R.remaining (inner_of reader.old)) result
        (W.contents (inner_of writer.old)) (W.contents (inner_of writer.new)) (F.contents faults.old) (F.contents faults.new) }
{
    let mut invocation = match read_words(rt.alloc(), words) {
        Ok(invocation) => invocation,
        Err(no_command) => return show(&no_command, writer, faults),
    };
    if let Err(fault) = gather(rt, rt.alloc(), &mut invocation) {
        return cli_queries::refuse(rt.alloc(), &invocation, fault, faults);
    }
    match keyring_file(rt, &invocation) {
        Ok(None) => carry_out(rt, rt.alloc(), &mut invocation, reader, writer, faults),
        Ok(Some(file)) => {
            let mut file = Watched::new(file);
            carry_out(rt, rt.alloc(), &mut invocation, &mut file, writer, faults)
        }
        Err(fault) => cli_queries::refuse(rt.alloc(), &invocation, fault, faults),
    }
}

/// Does what is asked, and returns the status: `DONE` where all of the answer was written, no stream failed, and nothing was
/// written to `faults` but that no grant names the file system, or `DENIED` where the status is all of the answer, or `FOUND` where
/// something was found, or could not be judged, and all of it written; else `FAILED`. Neither stream was read or written to yet. What is
/// read of a question's grants, and which file systems grants name, is kept in `invocation`.
pub fn carry_out<T: Threads + Wait + Sync, R: Read, W: Write, F: Write>(
    rt: &T,
    alloc: Global,
    invocation: &mut Invocation,
    reader: &mut Watched<R>,
    writer: &mut Watched<W>,
    faults: &mut F,
) -> u8
    requires reader_clear { IsFalse (has_failed reader.old) }
    requires reader_unended { IsFalse (has_ended reader.old) }
    requires writer_clear { IsFalse (has_failed writer.old) }
    ensures { (((result ≡ DONE) ⊎ (result ≡ FOUND))
        × IsFalse (has_failed reader.new) × IsFalse (has_failed writer.new)
        × Notes invocation.old (R.remaining (inner_of reader.old)) (F.contents faults.old) (F.contents faults.new)
        × Answers invocation.old (R.remaining (inner_of reader.old)) result
        (W.contents (inner_of writer.old)) (W.contents (inner_of writer.new)))
        ⊎ ((result ≡ FAILED) × ((fault : AFault)
        × Stops invocation.old fault (R.remaining (inner_of reader.old)) (has_ended reader.new) (has_failed reader.new) (has_failed writer.new)
        (W.contents (inner_of writer.old)) (W.contents (inner_of writer.new)))) }
{
    match answer(rt, alloc, invocation, reader, writer) {
        Ok(status) => {
            let _ = note(alloc, invocation, faults);
            status
        }
        Err(fault) => refuse(alloc, invocation, fault, reader, faults),
    }
}

// Writes the answer to what is asked, and says its status.
fn answer<T: Threads + Wait + Sync, R: Read, W: Write>(
    rt: &T,
    alloc: Global,
    invocation: &mut Invocation,
    reader: &mut Watched<R>,
    writer: &mut Watched<W>,
) -> Result<u8, Fault>
    requires reader_clear { IsFalse (has_failed reader.old) }
    requires reader_unended { IsFalse (has_ended reader.old) }
    requires writer_clear { IsFalse (has_failed writer.old) }
    ensures status { IfOk result (λ status. (status ≡ DONE) ⊎ (status ≡ FOUND)) }
    ensures ok { IfOk result (λ status. IsFalse (has_failed reader.new) × IsFalse (has_failed writer.new)
        × Answers invocation.old (R.remaining (inner_of reader.old)) status
        (W.contents (inner_of writer.old)) (W.contents (inner_of writer.new))) }
    ensures names { OnOk result (KnowsNames invocation.old invocation.new (R.remaining (inner_of reader.old))) }
    ensures err { IfErr result (λ fault.
        Stops invocation.old fault (R.remaining (inner_of reader.old)) (has_ended reader.new) (has_failed reader.new) (has_failed writer.new)
        (W.contents (inner_of writer.old)) (W.contents (inner_of writer.new))) }
{
    let answered = match invocation {
        Invocation::Explain(explain_args) => explain(alloc, explain_args, reader, writer),
        Invocation::Grants { text, more: _, mds } => {
            grants(alloc, text.as_slice(), *mds, writer)
        }
        Invocation::Compare {
            old,
            new,
            telling,
            mds,
            addr,
        } => {
            let by = ComparedBy { mds: *mds, addr };
            compare_texts(alloc, old.as_slice(), new.as_slice(), by, *telling, writer)
        }
        Invocation::Lint { text, shape, mds } => {
            lint(alloc, text.as_slice(), *shape, *mds, writer)
        }
        Invocation::Who(who_args) => who(alloc, who_args, reader, writer),
        Invocation::Audit(audit_args) => audit(alloc, audit_args, reader, writer),
        Invocation::Log {
            fs,
            only_denied,
            mds,
            shape,
            counts,
        } => {
            let scope = LogScope {
                fs: fs.as_slice(),
                only_denied: *only_denied,
                release: *mds,
                shape: *shape,
                counts: *counts,
            };
            log(alloc, scope, reader, writer)
        }
        Invocation::Run { more: _ } => return run_script(alloc, reader, writer),
        Invocation::Serve { more: _ } => return serve_script(rt, alloc, reader, writer),
    };
    match answered {
        Ok(status) => Ok(status),
        Err(fault) => Err(Fault::Answer(fault)),
    }
}

// Writes the transcript of the script that is read, up to its end or to the first line that has a fault.
fn run_script<R: Read, W: Write>(
    alloc: Global,
    reader: &mut Watched<R>,
    writer: &mut Watched<W>,
) -> Result<u8, Fault>
    requires reader_clear { IsFalse (has_failed reader.old) }
    requires reader_unended { IsFalse (has_ended reader.old) }
    requires writer_clear { IsFalse (has_failed writer.old) }
    ensures status { IfOk result (λ status. status ≡ DONE) }
    ensures ok { OnOk result (IsFalse (has_failed reader.new) × IsFalse (has_failed writer.new)) }
    ensures short { OnOk result (IfSome (R.remaining (inner_of reader.old)) (λ script. length script ≤ longest_script)) }
    ensures ran { OnOk result (IfSome (R.remaining (inner_of reader.old)) (λ script. (text : List ℕ)
        × IsTranscript (lines script) text
        × Appends (W.contents (inner_of writer.old)) (W.contents (inner_of writer.new)) text)) }
    ensures stops { IfErr result (λ fault. (stop : AScriptFault) × (fault ≡ faults.Script stop)
        × RunStops stop (R.remaining (inner_of reader.old)) (has_ended reader.new) (has_failed reader.new) (has_failed writer.new)
        (W.contents (inner_of writer.old)) (W.contents (inner_of writer.new))) }
{
    match run(alloc, reader, writer) {
        Ok(()) => Ok(DONE),
        Err(stop) => Err(Fault::Script(stop)),
    }
}

// Serves the script that is read, and writes its history.
fn serve_script<T: Threads + Wait + Sync, R: Read, W: Write>(
    rt: &T,
    alloc: Global,
    reader: &mut Watched<R>,
    writer: &mut Watched<W>,
) -> Result<u8, Fault>
    requires reader_clear { IsFalse (has_failed reader.old) }
    requires reader_unended { IsFalse (has_ended reader.old) }
    requires writer_clear { IsFalse (has_failed writer.old) }
    ensures status { IfOk result (λ status. status ≡ DONE) }
    ensures ok { OnOk result (IsFalse (has_failed reader.new) × IsFalse (has_failed writer.new)) }
    ensures short { OnOk result (IfSome (R.remaining (inner_of reader.old)) (λ script. length script ≤ longest_script)) }
    ensures served { OnOk result (IfSome (R.remaining (inner_of reader.old)) (λ script. (text : List ℕ)
        × IsServed (lines script) text
        × Appends (W.contents (inner_of writer.old)) (W.contents (inner_of writer.new)) text)) }
    ensures stops { IfErr result (λ fault. (stop : AServeFault) × (fault ≡ faults.Serve stop)
        × ServeStops stop (R.remaining (inner_of reader.old)) (has_failed reader.new) (has_failed writer.new)
        (W.contents (inner_of writer.old)) (W.contents (inner_of writer.new))) }
{
    match serve(rt, alloc, reader, writer) {
        Ok(()) => Ok(DONE),
        Err(stop) => Err(Fault::Serve(stop)),
    }
}

// Says what stopped a command, and what helps against it, and returns its status.
fn refuse<R>(
    alloc: Global,
    invocation: &Invocation,
    fault: Fault,
    reader: &Watched<R>,
    faults: &mut impl Write,
) -> u8
    ensures { result ≡ FAILED }
{
    let status = match fault {
        Fault::Answer(fault) => return cli_queries::refuse(alloc, invocation, fault, faults),
        Fault::Script(stop) => report(stop, faults),
        Fault::Serve(stop) => report(stop, faults),
    };
    if let Invocation::Run { more: true } | Invocation::Serve { more: true } = invocation
        && let Some(cause) = cause_of(fault, reader)
    {
        let _ = writeln!(faults, "hint: {cause}");
    }
    status
}

// What is known of the cause of a fault, where its line doesn't tell it.
fn cause_of<R>(fault: Fault, reader: &Watched<R>) -> Option<&'static str>
    ensures { option_map (λ cause. cause.now) result ≡ hint_of fault (has_blocked reader.now) (has_failed reader.now) }
{
    match fault {
        Fault::Script(ScriptFault::ReadFault)
        | Fault::Serve(ServeFault::Script(ScriptFault::ReadFault)) => cause_unread(reader),
        Fault::Serve(ServeFault::NoThread) => Some(
            "a thread was not to be had, or no memory for it",
        ),
        _ => None,
    }
}

// Why a script was not read. Where no read failed it is too long.
fn cause_unread<R>(reader: &Watched<R>) -> Option<&'static str>
    ensures { option_map (λ cause. cause.now) result ≡ hint_unread (has_blocked reader.now) (has_failed reader.now) }
{
    if reader.blocked() {
        Some("standard input had nothing yet, and is set not to wait for more")
    } else if reader.failed() {
        None
    } else {
        Some("a script has at most 16777216 bytes")
    }
}
