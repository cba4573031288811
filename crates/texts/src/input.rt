//! Whole scripts in, texts out.
ghost use Rattle.std.specs.Prelude.{◌≡◌, ◌⊎◌, ◌↔◌, ◌+◌, ◌<◌, ◌≤◌, ◌++◌, ℕ, List, length, IsTrue, IsFalse, IfOk, IfSome, OnOk, OnErr, Err};
ghost use Rattle.std.specs.Io.KnownBytes.{Appends, Consumes, IsAtEnd};
ghost use Rattle.texts.specs.declared.fault.ScriptFault.TheVariants as stops;
ghost use Rattle.texts.specs.ScriptLines.{longest_script};
ghost use Rattle.texts.specs.Watched.{has_ended, has_failed, inner_of};

use crate::fault::ScriptFault;
use crate::watched::Watched;
use std::alloc::Global;
use std::io::{Read, Write};

/// How many bytes a script may have.
pub const MAX_SCRIPT: usize = 16777216;

// How many bytes are read at once.
const CHUNK: usize = 4096;

/// Reads all there is, but no byte behind the first one too many.
pub fn read_script<R: Read>(alloc: Global, reader: &mut Watched<R>) -> Result<Vec<u8>, ScriptFault>
    requires clear { IsFalse (has_failed reader.old) }
    requires unended { IsFalse (has_ended reader.old) }
    ensures ok { IfOk result (λ script.
        Consumes (R.remaining (inner_of reader.old)) (R.remaining (inner_of reader.new)) script.items) }
    ensures end { OnOk result (IsAtEnd (R.remaining (inner_of reader.new))) }
    // Its end was seen, and where memory was missed, it was not.
    ensures seen { OnOk result (IsTrue (has_ended reader.new)) }
    ensures unseen { result ≡ Err stops.NoMemory → IsFalse (has_ended reader.new) }
    ensures short { IfOk result (λ script. length script.items ≤ longest_script) }
    ensures taken { (taken : List ℕ)
        × Consumes (R.remaining (inner_of reader.old)) (R.remaining (inner_of reader.new)) taken
        × (length taken ≤ longest_script + 1) }
    // A read that failed is told.
    ensures reported { IsTrue (has_failed reader.new) → result ≡ Err stops.ReadFault }
    // A script that is too long is never read; memory may run out on the way to its end.
    ensures long { IfSome (R.remaining (inner_of reader.old)) (λ script. longest_script < length script
        → (result ≡ Err stops.ReadFault) ⊎ (result ≡ Err stops.NoMemory)) }
    // Where it is not too long, a read failed.
    ensures fault { result ≡ Err stops.ReadFault
        → IsTrue (has_failed reader.new)
        ⊎ IfSome (R.remaining (inner_of reader.old)) (λ script. longest_script < length script) }
    ensures err { OnErr result ((result ≡ Err stops.ReadFault) ⊎ (result ≡ Err stops.NoMemory)) }
{
    let mut script = Vec::new(alloc);
    let mut buffer = [0; CHUNK];
    while script.len() <= MAX_SCRIPT {
        let room = CHUNK.min(MAX_SCRIPT + 1 - script.len());
        let taken = match reader.read(&mut buffer[..room]) {
            Ok(taken) => taken,
            Err(_) => return Err(ScriptFault::ReadFault),
        };
        if taken == 0 {
            return Ok(script);
        }
        if script.extend_from_slice(&buffer[..taken]).is_err() {
            return Err(ScriptFault::NoMemory);
        }
    }
    Err(ScriptFault::ReadFault)
}

/// Writes all of a text. Where the writer fails, it took a front of the text.
pub fn write_text<W: Write>(writer: &mut Watched<W>, text: &[u8]) -> Result<(), ScriptFault>
    requires { IsFalse (has_failed writer.old) }
    ensures ok { OnOk result (
        Appends (W.contents (inner_of writer.old)) (W.contents (inner_of writer.new)) text.now) }
    ensures err { OnErr result ((taken left : List ℕ)
        × (text.now ≡ taken ++ left)
        × Appends (W.contents (inner_of writer.old)) (W.contents (inner_of writer.new)) taken) }
    ensures kind { OnErr result (result ≡ Err stops.WriteFault) }
    // A write that failed is told, and only that.
    ensures reported { (result ≡ Err stops.WriteFault) ↔ IsTrue (has_failed writer.new) }
{
    let mut rest = text;
    while !rest.is_empty() {
        let taken = match writer.write(rest) {
            Ok(taken) => taken,
            Err(_) => return Err(ScriptFault::WriteFault),
        };
        if taken == 0 {
            return Err(ScriptFault::WriteFault);
        }
        rest = &rest[taken..];
    }
    Ok(())
}
