//! The work that is counted and timed, over words and streams that the caller passes.
ghost use Rattle.std.specs.Prelude.{◌≡◌, ◌≤◌};
ghost use Rattle.capbench.specs.Status.{status_of};

use crate::explaining::Asking;
use crate::fault::Fault;
use crate::jobs::{Amount, digest_of};
use crate::judging::{judge, read};
use crate::lines::lines_of;
use crate::retry::retry;
use crate::serving::{ServerWork, serve};
use crate::work::{Piece, Task, Work, task_of};
use std::alloc::Global;
use std::io::{Read, Write};
use std::sync::Wait;
use std::thread::Threads;
use texts::{Watched, read_script};

/// The work was done.
pub const DONE: u8 = 0;

/// Memory, a stream or an answer failed.
pub const FAILED: u8 = 1;

/// The words are not understood.
pub const USAGE: u8 = 2;

/// What work comes to.
#[derive(Clone, Copy)]
pub enum Answer {
    /// The sum over all answers of a piece of work.
    Sum(u64),
    /// The digest of all answers of a job.
    Digest(u64),
}

/// Does what the words behind the program's name ask for, and returns the status.
pub fn dispatch(
    rt: &(impl AllocGlobal + Threads + Wait + Sync),
    words: &[Vec<u8>],
    reader: &mut impl Read,
    writer: &mut impl Write,
    faults: &mut impl Write,
) -> u8
    ensures { result ≤ USAGE }
{
    let answer = match task_of(words) {
        Ok(task) => answer_to(rt, task, reader, writer),
        Err(fault) => Err(fault),
    };
    tell(answer, writer, faults)
}

// What work comes to. Only a piece of work reads a text.
fn answer_to(
    rt: &(impl AllocGlobal + Threads + Wait + Sync),
    task: Task,
    reader: &mut impl Read,
    writer: &mut impl Write,
) -> Result<Answer, Fault> {
    let Task { work, numbers } = task;
    match work {
        Work::Piece(piece) => {
            let read = read_text(rt.alloc(), reader)?;
            let text = read.as_slice();
            let lines = lines_of(rt.alloc(), text)?;
            let sum = sum_of(rt, piece, numbers, text, lines.as_slice(), writer)?;
            Ok(Answer::Sum(sum))
        }
        Work::Job(job) => {
            let [count, seed, _] = numbers;
            let digest = digest_of(rt, job, Amount { count, seed })?;
            Ok(Answer::Digest(digest))
        }
    }
}

// Reads all that there is to read, but for a line feed behind the last line.
fn read_text(alloc: Global, reader: &mut impl Read) -> Result<Vec<u8>, Fault> {
    let mut text = read_script(alloc, &mut Watched::new(reader))?;
    if let [.., b'\n'] = text.as_slice() {
        text.pop();
    }
    Ok(text)
}

// What a piece of work comes to, by the text or by its lines.
fn sum_of(
    rt: &(impl AllocGlobal + Threads + Wait + Sync),
    piece: Piece,
    numbers: [u32; 3],
    text: &[u8],
    lines: &[&[u8]],
    writer: &mut impl Write,
) -> Result<u64, Fault> {
    let (alloc, [first, second, third]) = (rt.alloc(), numbers);
    let work = match piece {
        Piece::Verdict => return judge(alloc, text, first),
        Piece::Parse => return read(alloc, text, first),
        Piece::Retry => return retry(alloc, lines, writer),
        Piece::Publish => ServerWork::Publish(first),
        Piece::Explain(way) => ServerWork::Explain(Asking {
            readers: first,
            inodes: second,
            times: third,
            way,
        }),
    };
    serve(rt, work, lines, writer)
}

/// Writes what work comes to as a line, or why it comes to nothing, and returns the status.
pub fn tell(answer: Result<Answer, Fault>, writer: &mut impl Write, faults: &mut impl Write) -> u8
    ensures { result ≤ USAGE }
{
    let written = match answer {
        Ok(Answer::Sum(sum)) => writeln!(writer, "sum {sum}"),
        Ok(Answer::Digest(digest)) => writeln!(writer, "digest {digest:016x}"),
        Err(fault) => return report(fault, faults),
    };
    match written {
        Ok(()) => DONE,
        Err(_) => report(Fault::WriteFailed, faults),
    }
}

/// Writes the fault as a line, and returns its status.
pub fn report(fault: Fault, faults: &mut impl Write) -> u8
    ensures status { result ≡ status_of fault }
    ensures bound { result ≤ USAGE }
{
    let text = fault.text();
    let _ = writeln!(faults, "capbench: {text}");
    match fault {
        Fault::Usage | Fault::NoJob => USAGE,
        _ => FAILED,
    }
}
