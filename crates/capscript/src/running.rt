//! Running a script.
ghost use Rattle.std.specs.Prelude.{◌≡◌, ◌≢◌, ◌⊎◌, ◌↔◌, ◌<◌, ◌≤◌, ◌+◌, ◌++◌, ℕ, List, [], length, IsTrue, IsFalse, IfOk, IfErr, IfSome, OnOk, OnErr, Err};
ghost use Rattle.std.specs.Io.KnownBytes.{Appends, Consumes};
ghost use Rattle.inotree.specs.Calls.{first_tree};
ghost use Rattle.capstep.specs.History.{HasNoStray, IsOpening};
ghost use Rattle.texts.specs.declared.fault.ScriptFault.TheVariants as stops;
ghost use Rattle.texts.specs.ScriptLines.{lines, longest_script};
ghost use Rattle.capscript.specs.Transcript.{Answered, Answers, AnswersLine, Ran, StopsIn, fs_name, root_attr};
ghost use Rattle.texts.specs.Watched.{has_ended, has_failed, inner_of};

use capbits::{Mode, PassId};
use capcore::Core;
use capexplain::{read_line, reply_lines};
use capgrant::Attr;
use capspec::FsName;
use capstep::Event;
use capstep::stop::Stop;
use inotree::Tree;
use std::alloc::{AllocError, Global};
use std::io::{Read, Write};
use texts::{ScriptFault, Watched, read_script, split_line, write_text};

/// The name of the file system that a script runs on.
const FS_NAME: &[u8] = b"cephfs";

/// The mode of its root, which is owned by 0:0.
const ROOT_MODE: u16 = 0o755;

/// Reads a whole script, runs it on a root alone, and writes the text of each reply, up to the end or to the first line that has a fault. All is read before anything is written.
pub fn run<R: Read, W: Write>(
    alloc: Global,
    reader: &mut Watched<R>,
    writer: &mut Watched<W>,
) -> Result<(), ScriptFault>
    requires reader_clear { IsFalse (has_failed reader.old) }
    requires reader_unended { IsFalse (has_ended reader.old) }
    requires writer_clear { IsFalse (has_failed writer.old) }
    // What was written, where it is known what there was to read. It ends at the first line that has a fault; where the script was read
    // to its end, memory is missed only at a line that says an event.
    ensures ran { IfSome (R.remaining (inner_of reader.old)) (λ script. (text : List ℕ)
        × Ran script (has_ended reader.new) result text
        × Appends (W.contents (inner_of writer.old)) (W.contents (inner_of writer.new)) text) }
    // A read that failed is told, and then nothing was written.
    ensures read_failed { IsTrue (has_failed reader.new) → result ≡ Err stops.ReadFault }
    // A script that is too long is not run, and nothing is written; memory may run out on the way to its end.
    ensures long { IfSome (R.remaining (inner_of reader.old)) (λ script. longest_script < length script
        → ((result ≡ Err stops.ReadFault) ⊎ (result ≡ Err stops.NoMemory))
        × Appends (W.contents (inner_of writer.old)) (W.contents (inner_of writer.new)) []) }
    // ReadFault comes only of a read that failed and of a script that is too long.
    ensures read { result ≡ Err stops.ReadFault
        → (IsTrue (has_failed reader.new)
        ⊎ IfSome (R.remaining (inner_of reader.old)) (λ script. longest_script < length script))
        × Appends (W.contents (inner_of writer.old)) (W.contents (inner_of writer.new)) [] }
    // A write that failed is told, and only that.
    ensures written { (result ≡ Err stops.WriteFault) ↔ IsTrue (has_failed writer.new) }
    // At most one byte too many is taken from the reader.
    ensures taken { (taken : List ℕ)
        × Consumes (R.remaining (inner_of reader.old)) (R.remaining (inner_of reader.new)) taken
        × (length taken ≤ longest_script + 1) }
{
    let core = open_core(alloc)?;
    // What is handed on here is dropped there: in this function each part of the core would be a step of the proof.
    match read_script(alloc, reader) {
        Ok(script) => answer_script(alloc, core, script, writer),
        Err(fault) => {
            drop(core);
            Err(fault)
        }
    }
}

// Answers the events of a script, which it drops with the core.
fn answer_script<W: Write>(
    alloc: Global,
    mut core: Core,
    script: Vec<u8>,
    writer: &mut Watched<W>,
) -> Result<(), ScriptFault>
    requires opens { IsOpening fs_name (first_tree root_attr) core.state }
    requires empty { core.rows ≡ [] }
    requires room { core.max_rows ≡ u32.MAX }
    requires short { length script.items ≤ longest_script }
    requires clear { IsFalse (has_failed writer.old) }
    ensures ran { (text : List ℕ)
        × Answered (lines script.items) result text
        × Appends (W.contents (inner_of writer.old)) (W.contents (inner_of writer.new)) text }
    ensures read { result ≢ Err stops.ReadFault }
    ensures written { (result ≡ Err stops.WriteFault) ↔ IsTrue (has_failed writer.new) }
{
    let answered = answer_lines(alloc, &mut core, script.as_slice(), writer);
    drop(core);
    answered
}

// The core of a file system that has a root alone.
fn open_core(alloc: Global) -> Result<Core, ScriptFault>
    ensures opens { IfOk result (λ core. IsOpening fs_name (first_tree root_attr) core.state) }
    ensures empty { IfOk result (λ core. core.rows ≡ []) }
    ensures room { IfOk result (λ core. core.max_rows ≡ u32.MAX) }
    ensures err { OnErr result (result ≡ Err stops.NoMemory) }
{
    let Ok((fs, tree)) = file_system(alloc) else {
        return Err(ScriptFault::NoMemory);
    };
    match Core::new(alloc, fs, tree, u32::MAX) {
        Ok(core) => Ok(core),
        Err(_) => Err(ScriptFault::NoMemory),
    }
}

/// The file system that a script runs on: its name, and a tree that is a root alone.
pub fn file_system(alloc: Global) -> Result<(FsName, Tree), AllocError>
    ensures name { IfOk result (λ system. system.0 ≡ fs_name) }
    ensures tree { IfOk result (λ system. system.1 ≡ first_tree root_attr) }
    ensures strays { IfOk result (λ system. HasNoStray system.1) }
{
    let (Some(fs), Some(mode)) = (FsName::read(FS_NAME), Mode::new(ROOT_MODE)) else {
        unreachable!()
    };
    let attr = Attr {
        uid: 0,
        gid: 0,
        mode,
    };
    let tree = Tree::new(alloc, attr)?;
    Ok((fs, tree))
}

// Answers the events of the lines, up to the end or to the first line that has a fault.
fn answer_lines<W: Write>(
    alloc: Global,
    core: &mut Core,
    script: &[u8],
    writer: &mut Watched<W>,
) -> Result<(), ScriptFault>
    requires opens { IsOpening fs_name (first_tree root_attr) core.old.state }
    requires empty { core.old.rows ≡ [] }
    requires room { core.old.max_rows ≡ u32.MAX }
    requires short { length script.now ≤ longest_script }
    requires clear { IsFalse (has_failed writer.old) }
    ensures ran { (text : List ℕ)
        × Answered (lines script.now) result text
        × Appends (W.contents (inner_of writer.old)) (W.contents (inner_of writer.new)) text }
    ensures read { result ≢ Err stops.ReadFault }
    ensures written { (result ≡ Err stops.WriteFault) ↔ IsTrue (has_failed writer.new) }
{
    let mut rest = script;
    let mut number = 1;
    while let Some((text, behind)) = split_line(rest) {
        answer_line(alloc, core, number, text, writer)?;
        rest = behind;
        number += 1;
    }
    answer_line(alloc, core, number, rest, writer)
}

// Answers the event of one line, if it is not skipped.
fn answer_line<W: Write>(
    alloc: Global,
    core: &mut Core,
    number: u64,
    text: &[u8],
    writer: &mut Watched<W>,
) -> Result<(), ScriptFault>
    requires room { length core.old.rows < core.old.max_rows }
    requires clear { IsFalse (has_failed writer.old) }
    ensures ok { OnOk result ((written : List ℕ)
        × AnswersLine core.old text.now core.new written
        × Appends (W.contents (inner_of writer.old)) (W.contents (inner_of writer.new)) written) }
    ensures err { IfErr result (λ fault. (written : List ℕ)
        × StopsIn core.old number text.now fault core.new written
        × Appends (W.contents (inner_of writer.old)) (W.contents (inner_of writer.new)) written) }
    ensures written { (result ≡ Err stops.WriteFault) ↔ IsTrue (has_failed writer.new) }
{
    match read_line(alloc, number, text)? {
        Some((_, event)) => answer_event(alloc, core, event, writer),
        None => Ok(()),
    }
}

// Answers one event.
fn answer_event<W: Write>(
    alloc: Global,
    core: &mut Core,
    event: Event,
    writer: &mut Watched<W>,
) -> Result<(), ScriptFault>
    requires room { length core.old.rows < core.old.max_rows }
    requires clear { IsFalse (has_failed writer.old) }
    ensures ok { OnOk result ((text : List ℕ)
        × Answers core.old event core.new text
        × Appends (W.contents (inner_of writer.old)) (W.contents (inner_of writer.new)) text) }
    // Without memory nothing is written.
    ensures memory { result ≡ Err stops.NoMemory
        → Appends (W.contents (inner_of writer.old)) (W.contents (inner_of writer.new)) [] }
    // A writer that fails took the beginning of the answer.
    ensures part { result ≡ Err stops.WriteFault → (text left : List ℕ)
        × Answers core.old event core.new (text ++ left)
        × Appends (W.contents (inner_of writer.old)) (W.contents (inner_of writer.new)) text }
    ensures written { (result ≡ Err stops.WriteFault) ↔ IsTrue (has_failed writer.new) }
    ensures err { OnErr result ((result ≡ Err stops.WriteFault) ⊎ (result ≡ Err stops.NoMemory)) }
{
    let reply = match core.apply(PassId(1), event) {
        Ok(reply) => reply,
        Err(Stop::NoMemory) => return Err(ScriptFault::NoMemory),
        Err(Stop::Full) => unreachable!(),
    };
    match reply_lines(alloc, &reply) {
        Ok(text) => write_text(writer, text.as_slice()),
        Err(_) => Err(ScriptFault::NoMemory),
    }
}
