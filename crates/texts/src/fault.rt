//! Why a script stopped.

use capspec::SpecFault;
use std::fmt;
use thiserror::Error;

/// What is wrong with a line. It prints as the name of its kind; that of a grant text has the fault of the text behind it.
#[derive(Clone, Copy, PartialEq, Eq, Error)]
pub enum LineFault {
    /// The first word is no command.
    Command,
    /// The command wants fewer words or more of them, or the line is too long.
    Count,
    /// A word is no number of its size, or no list of group numbers.
    Number,
    /// A word spells no set of caps.
    Caps,
    /// A word is no mode of a file, or nothing that an inode is opened for.
    Mode,
    /// A word is no part of what an inode keeps.
    Part,
    /// A word begins no change.
    Change,
    /// A word writes no bytes.
    Hex,
    /// The rest of the line is no grant text.
    Grants(SpecFault),
}

/// Why a script stopped before its end.
#[derive(Clone, Copy, PartialEq, Eq, Error)]
pub enum ScriptFault {
    /// The script could not be read, or is too long.
    ReadFault,
    /// An answer could not be written.
    WriteFault,
    /// A line has a fault.
    LineFault {
        /// The number of the line, the first being 1. Skipped lines count.
        line: u64,
        /// What is wrong with it.
        kind: LineFault,
    },
    /// No memory was left.
    NoMemory,
}

impl fmt::Display for LineFault {
    fn fmt<W: fmt::Write>(&self, f: &mut fmt::Formatter<W>) -> fmt::Result {
        let word = match self {
            LineFault::Command => "Command",
            LineFault::Count => "Count",
            LineFault::Number => "Number",
            LineFault::Caps => "Caps",
            LineFault::Mode => "Mode",
            LineFault::Part => "Part",
            LineFault::Change => "Change",
            LineFault::Hex => "Hex",
            LineFault::Grants(fault) => return write!(f, "Grants {fault}"),
        };
        f.write_str(word)
    }
}

impl fmt::Display for ScriptFault {
    fn fmt<W: fmt::Write>(&self, f: &mut fmt::Formatter<W>) -> fmt::Result {
        let words = match self {
            ScriptFault::ReadFault => "read failed",
            ScriptFault::WriteFault => "write failed",
            ScriptFault::LineFault { line, kind } => return write!(f, "line {line}: {kind}"),
            ScriptFault::NoMemory => "no memory",
        };
        f.write_str(words)
    }
}

// Faults print for programmers as they do for people, so that their words stand once.
impl fmt::Debug for LineFault {
    fn fmt<W: fmt::Write>(&self, f: &mut fmt::Formatter<W>) -> fmt::Result {
        fmt::Display::fmt(self, f)
    }
}

impl fmt::Debug for ScriptFault {
    fn fmt<W: fmt::Write>(&self, f: &mut fmt::Formatter<W>) -> fmt::Result {
        fmt::Display::fmt(self, f)
    }
}
