//! Of which file system a command is asked, and what is said where no grant names it.
ghost use Rattle.std.specs.Prelude.{◌≡◌, ◌++◌, option_map, codes, Some, IfOk, IfErr, OnOk};
ghost use Rattle.std.specs.Io.KnownBytes.{Appends};
ghost use Rattle.ceph_input.specs.FsNames.{fs_among};
ghost use Rattle.cli_queries.specs.Fault.{IsFaultOfNames};
ghost use Rattle.cli_queries.specs.FileSystems.{AppendsFront, given_in, listed, named_by, note_of};

use crate::command_line::Invocation;
use crate::fault::AnswerFault;
use capspec::FsName;
use ceph_input::{fs_among, is_unnamed};
use std::alloc::{AllocError, Global};
use std::io::Write;

/// The file system of which is asked, where grants name these, and this one is given or none.
pub(crate) fn fs_asked(named: &[FsName], given: &Option<FsName>) -> Result<FsName, AnswerFault>
    ensures ok { IfOk result (λ fs. fs_among named.now given.now ≡ Some fs) }
    ensures err { IfErr result (IsFaultOfNames named.now given.now) }
{
    match fs_among(named, given)? {
        Some(fs) => Ok(fs),
        None => Err(AnswerFault::SeveralFileSystems),
    }
}

/// Says beside an answer that no grant names the file system that was given, and which they name, where it is so. Where memory is missing nothing is
/// said, and where a write fails no more than what was written.
pub fn note<F: Write>(
    alloc: Global,
    invocation: &Invocation,
    faults: &mut F,
) -> Result<(), AnswerFault>
    ensures ok { OnOk result (Appends (F.contents faults.old) (F.contents faults.new) (note_of (named_by invocation.now) (given_in invocation.now))) }
    ensures front { AppendsFront (F.contents faults.old) (F.contents faults.new) (note_of (named_by invocation.now) (given_in invocation.now)) }
{
    let line = note_of(alloc, invocation)?;
    write_front(line.as_slice(), faults)
}

// What is said beside an answer.
fn note_of(alloc: Global, invocation: &Invocation) -> Result<Vec<u8>, AllocError>
    ensures { IfOk result (λ line. line.items ≡ note_of (named_by invocation.now) (given_in invocation.now)) }
{
    let Some(fs) = given_in(invocation) else {
        return Ok(Vec::new(alloc));
    };
    let named = named_by(invocation);
    if is_unnamed(named, fs) {
        return names_line(
            alloc,
            b"capd: no grant names the file system that --fs does; they name ",
            named,
        );
    }
    Ok(Vec::new(alloc))
}

// The file system that is given, where one may be left out.
fn given_in(invocation: &Invocation) -> Option<&[u8]>
    ensures { option_map (λ fs. fs.now) result ≡ option_map (λ fs. fs.items) (given_in invocation.now) }
{
    match invocation {
        Invocation::Who(who_args) => given_value(&who_args.values.fs),
        Invocation::Audit(audit_args) => given_value(&audit_args.fs),
        _ => None,
    }
}

/// The bytes of a value that may be left out.
pub(crate) fn given_value(value: &Option<Vec<u8>>) -> Option<&[u8]>
    ensures { option_map (λ bytes. bytes.now) result ≡ option_map (λ bytes. bytes.items) value.now }
{
    match value {
        None => None,
        Some(bytes) => Some(bytes.as_slice()),
    }
}

/// The file systems that grants name, as far as they are known.
pub(crate) fn named_by(invocation: &Invocation) -> &[FsName]
    ensures { result.now ≡ named_by invocation.now }
{
    match invocation {
        Invocation::Who(who_args) => who_args.named.as_slice(),
        Invocation::Audit(audit_args) => audit_args.named.as_slice(),
        _ => &[],
    }
}

/// A line that begins so and ends with these names.
pub(crate) fn names_line(
    alloc: Global,
    lead: &[u8],
    names: &[FsName],
) -> Result<Vec<u8>, AllocError>
    ensures { IfOk result (λ line. line.items ≡ lead.now ++ listed names.now ++ codes "\n") }
{
    let mut line = Vec::from_slice(alloc, lead)?;
    print_names(&mut line, names)?;
    line.push(b'\n')?;
    Ok(line)
}

// Puts the names behind the text, with a comma between each two.
fn print_names(text: &mut Vec<u8>, names: &[FsName]) -> Result<(), AllocError>
    ensures { OnOk result (text.new.items ≡ text.old.items ++ listed names.now) }
{
    for (place, name) in names.iter().enumerate() {
        if place > 0 {
            text.extend_from_slice(b", ")?;
        }
        text.extend_from_slice(name.as_bytes())?;
    }
    Ok(())
}

// Writes a text, or its front where a write fails.
fn write_front<F: Write>(text: &[u8], faults: &mut F) -> Result<(), AnswerFault>
    ensures ok { OnOk result (Appends (F.contents faults.old) (F.contents faults.new) text.now) }
    ensures front { AppendsFront (F.contents faults.old) (F.contents faults.new) text.now }
{
    let mut rest = text;
    while !rest.is_empty() {
        let taken = match faults.write(rest) {
            Ok(taken) => taken,
            Err(_) => return Err(AnswerFault::WriteFailed),
        };
        if taken == 0 {
            return Err(AnswerFault::WriteFailed);
        }
        rest = &rest[taken..];
    }
    Ok(())
}
