//! What the words of the command line ask for, or what is said of them.
ghost use Rattle.std.specs.Prelude.{◌≡◌, ◌≤◌, IfErr};
ghost use Rattle.std.specs.Io.KnownBytes.{Keeps};
ghost use Rattle.cli_queries.specs.Words.{SaysSomething, ShowsHelp};

use crate::command_line::{Invocation, parse};
use crate::fault::AnswerFault;
use crate::status::{DONE, USAGE, report};
use clap::error::ErrorKind;
use queries::spelled;
use std::alloc::{AllocError, Global};
use std::io::Write;

/// What is said of words that ask for no command.
pub enum NoCommand {
    /// The help that they ask for, or the version.
    Help(Vec<u8>),
    /// What is wrong with them.
    Usage(Vec<u8>),
    /// No memory was left.
    NoMemory,
}

// Not derived: so the proof of a function that drops one has a single call there.
impl Drop for NoCommand {
    fn drop(self) {
        match self {
            NoCommand::Help(_) => {}
            NoCommand::Usage(_) => {}
            NoCommand::NoMemory => {}
        }
    }
}

/// What the words behind the program's name ask for, or what the parser of the command line says of them, with the words in it as they
/// came.
pub fn read_words(alloc: Global, words: &[Vec<u8>]) -> Result<Invocation, NoCommand>
    ensures { IfErr result SaysSomething }
{
    match parse(alloc, words) {
        Ok(invocation) => Ok(invocation),
        Err(error) => Err(no_command_of(alloc, &error)),
    }
}

// Help without a byte would be none.
fn no_command_of(alloc: Global, error: &clap::Error) -> NoCommand
    ensures { SaysSomething result }
{
    if error.kind() == ErrorKind::OutOfMemory {
        return NoCommand::NoMemory;
    }
    match message_of(alloc, error) {
        Ok(text) if error.use_stderr() || text.is_empty() => NoCommand::Usage(text),
        Ok(text) => NoCommand::Help(text),
        Err(_) => NoCommand::NoMemory,
    }
}

fn message_of(alloc: Global, error: &clap::Error) -> Result<Vec<u8>, AllocError> {
    let text = format!(in alloc; "{error}")?;
    spelled(alloc, text.as_str())
}

/// Writes what is said of words, the help on `writer`, what is wrong on `faults`, and returns the status.
pub fn show<W: Write, F: Write>(no_command: &NoCommand, writer: &mut W, faults: &mut F) -> u8
    ensures status { result ≤ USAGE }
    ensures help { result ≡ DONE → ShowsHelp no_command.now (W.contents writer.old) (W.contents writer.new) }
    ensures done { result ≡ DONE → Keeps (F.contents faults.old) (F.contents faults.new) }
    ensures usage { result ≡ USAGE → Keeps (W.contents writer.old) (W.contents writer.new) }
{
    match no_command {
        NoCommand::Help(text) => match writer.write_all(text.as_slice()) {
            Ok(()) => DONE,
            Err(_) => report(AnswerFault::WriteFailed, faults),
        },
        NoCommand::Usage(text) => {
            let _ = faults.write_all(text.as_slice());
            USAGE
        }
        NoCommand::NoMemory => report(AnswerFault::NoMemory, faults),
    }
}
