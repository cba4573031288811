//! The command that tells of the checks of policy in a log of an MDS.
ghost use Rattle.std.specs.Prelude.{◌≡◌, ◌⊎◌, ◌+◌, ◌<◌, ◌^◌, length, IfOk, IfErr, OnOk, IsFalse};
ghost use Rattle.capspec.specs.Names.{IsFsName};
ghost use Rattle.queries.specs.LogPieces.{teller_of};
ghost use Rattle.queries.specs.Reported.{scope_of};
ghost use Rattle.texts.specs.Watched.{has_ended, has_failed, inner_of};
ghost use Rattle.cli_queries.specs.Logging.{AnswersLog, IsUnnamed, StopsLog, StopsTelling, WritesEnd, WritesPiece};

use crate::commands::write_text;
use crate::fault::AnswerFault;
use crate::status::{DONE, FOUND, judged_status};
use capspec::FsName;
use queries::{LogScope, LogTeller, Opt, QuestionFault};
use std::alloc::Global;
use std::io::{Read, Write};
use texts::{ScriptFault, Watched};

/// How many bytes a log may have.
const MAX_LOG: u64 = 1152921504606846976;

// How many bytes are read at once.
const CHUNK: usize = 4096;

/// Writes lines for each check of policy in the log that the reader has, as they come; and answers the status: `FOUND` where a check could not be judged.
pub fn log<R: Read, W: Write>(
    alloc: Global,
    scope: LogScope<'_>,
    reader: &mut Watched<R>,
    writer: &mut Watched<W>,
) -> Result<u8, AnswerFault>
    requires reader_clear { IsFalse (has_failed reader.old) }
    requires reader_unended { IsFalse (has_ended reader.old) }
    requires writer_clear { IsFalse (has_failed writer.old) }
    ensures status { IfOk result (λ status. (status ≡ DONE) ⊎ (status ≡ FOUND)) }
    ensures ok { OnOk result (IsFalse (has_failed reader.new) × IsFalse (has_failed writer.new)) }
    ensures reported { IfOk result (λ status. AnswersLog (scope_of scope.entry) (R.remaining (inner_of reader.old)) status
        (W.contents (inner_of writer.old)) (W.contents (inner_of writer.new))) }
    ensures err { IfErr result (λ fault. StopsLog (scope_of scope.entry) fault (R.remaining (inner_of reader.old))
        (has_failed reader.new) (has_failed writer.new) (W.contents (inner_of writer.old)) (W.contents (inner_of writer.new))) }
{
    check_name(scope.fs)?;
    let mut teller = LogTeller::new(alloc);
    let mut buffer = [0; CHUNK];
    let mut size: u64 = 0;
    'pieces: while size <= MAX_LOG {
        let taken = match reader.read(&mut buffer) {
            Ok(taken) => taken,
            Err(_) => return Err(AnswerFault::Unread(ScriptFault::ReadFault)),
        };
        if taken == 0 {
            return tell_end(alloc, &mut teller, scope, writer);
        }
        tell_piece(alloc, &mut teller, scope, &buffer[..taken], writer)?;
        size += taken as u64;
    }
    Err(AnswerFault::Unread(ScriptFault::ReadFault))
}

// Whether a file system may have this name.
fn check_name(fs: &[u8]) -> Result<(), AnswerFault>
    ensures ok { OnOk result (IsFsName fs.now) }
    ensures err { IfErr result (IsUnnamed fs.now) }
{
    if FsName::read(fs).is_none() {
        return Err(AnswerFault::Question(QuestionFault::BadValue(Opt::Fs)));
    }
    Ok(())
}

// Writes what is told of the lines that end in a piece of the log.
fn tell_piece<W: Write>(
    alloc: Global,
    teller: &mut LogTeller,
    scope: LogScope<'_>,
    piece: &[u8],
    writer: &mut Watched<W>,
) -> Result<(), AnswerFault>
    requires room { (teller_of teller.old).state.number + length (teller_of teller.old).unfinished + length piece.now < 2 ^ 64 }
    requires few { (teller_of teller.old).state.passed < (teller_of teller.old).state.number }
    requires clear { IsFalse (has_failed writer.old) }
    ensures ok { OnOk result (IsFalse (has_failed writer.new)) }
    ensures told { OnOk result (WritesPiece (scope_of scope.entry) (teller_of teller.old) piece.now (teller_of teller.new)
        (W.contents (inner_of writer.old)) (W.contents (inner_of writer.new))) }
    ensures err { IfErr result (λ fault. StopsTelling fault (has_failed writer.new)
        (W.contents (inner_of writer.old)) (W.contents (inner_of writer.new))) }
{
    let mut reported = Vec::new(alloc);
    teller.take(&mut reported, scope, piece)?;
    write_text(reported.as_slice(), DONE, writer)?;
    Ok(())
}

// Writes what is told where the log ends, and answers the status.
fn tell_end<W: Write>(
    alloc: Global,
    teller: &mut LogTeller,
    scope: LogScope<'_>,
    writer: &mut Watched<W>,
) -> Result<u8, AnswerFault>
    requires room { (teller_of teller.old).state.number < 2 ^ 63 }
    requires few { (teller_of teller.old).state.passed < (teller_of teller.old).state.number }
    requires clear { IsFalse (has_failed writer.old) }
    ensures status { IfOk result (λ status. (status ≡ DONE) ⊎ (status ≡ FOUND)) }
    ensures ok { OnOk result (IsFalse (has_failed writer.new)) }
    ensures told { IfOk result (λ status. WritesEnd (scope_of scope.entry) (teller_of teller.old) status
        (W.contents (inner_of writer.old)) (W.contents (inner_of writer.new))) }
    ensures err { IfErr result (λ fault. StopsTelling fault (has_failed writer.new)
        (W.contents (inner_of writer.old)) (W.contents (inner_of writer.new))) }
{
    let mut reported = Vec::new(alloc);
    let is_judged = teller.finish(&mut reported, scope)?;
    let status = judged_status(is_judged);
    write_text(reported.as_slice(), status, writer)
}
