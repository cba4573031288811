//! Why talks can't be played.
ghost use Rattle.std.specs.Prelude.{◌≡◌};

use std::alloc::{AllocError, AllocFailed};
use std::io::Write;

/// Why talks can't be played.
#[derive(Clone, Copy)]
pub enum TalkFault {
    /// The words name no file of talks.
    NoFile,
    /// The file of talks can't be read.
    Unread,
    /// The file has no talk.
    NoTalk,
    /// Nothing is asked in the talk that begins here.
    NoLine,
    /// An earlier talk of the file has this name.
    NameTwice,
    /// No earlier talk of the file has this name.
    NoEarlier,
    /// The line means nothing where it stands.
    NotUnderstood,
    /// No memory was left.
    NoMemory,
    /// What there is to write could not be written.
    WriteFailed,
}

impl TalkFault {
    // What is said of it.
    fn text(self) -> &'static str {
        match self {
            TalkFault::NoFile => "no file is named",
            TalkFault::Unread => "it can't be read",
            TalkFault::NoTalk => "no talk is in it",
            TalkFault::NoLine => "the talk has no line",
            TalkFault::NameTwice => "the name stands twice",
            TalkFault::NoEarlier => "no earlier talk has this name",
            TalkFault::NotUnderstood => "the line is not understood",
            TalkFault::NoMemory => "no memory",
            TalkFault::WriteFailed => "write failed",
        }
    }

    /// The fault, at a line of a file of talks.
    pub fn at(self, line: usize) -> Place {
        Place { line, fault: self }
    }

    /// Says what is wrong where no file can be named, and returns the status, 1.
    pub fn report(self, faults: &mut impl Write) -> u8
        ensures { result ≡ 1 }
    {
        let text = self.text();
        let _ = writeln!(faults, "capbench: {text}");
        1
    }
}

/// A fault in a file of talks, with its line. Lines count from 1; in line 0 it is the whole file's.
#[derive(Clone, Copy)]
pub struct Place {
    pub line: usize,
    pub fault: TalkFault,
}

impl Place {
    /// Says what is wrong in a file of this name, and returns the status, 1.
    pub fn report(self, file: &str, faults: &mut impl Write) -> u8
        ensures { result ≡ 1 }
    {
        let Place { line, fault } = self;
        let text = fault.text();
        let _ = writeln!(faults, "capbench: {file}, line {line}: {text}");
        1
    }
}

impl From<AllocError> for TalkFault {
    fn from(_: AllocError) -> Self {
        TalkFault::NoMemory
    }
}

impl<T: Drop> From<AllocFailed<T>> for TalkFault {
    fn from(_: AllocFailed<T>) -> Self {
        TalkFault::NoMemory
    }
}
