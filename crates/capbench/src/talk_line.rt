//! The lines of a file of talks.

use crate::run::Program;
use crate::talk_fault::TalkFault;

// The marks that a line begins with, but that of a remark.
const MARKS: &[u8] = b"*+$%@>!=";

/// What a line is, by its first byte, with the text behind that.
#[derive(Clone, Copy)]
pub enum Line<'a> {
    /// Nothing, or a remark.
    Remark,
    /// A talk of this name begins.
    Talk(&'a [u8]),
    /// The talk begins with all lines of the earlier talk of this name.
    Begins(&'a [u8]),
    /// The words of a command line of a program.
    Command(Program, &'a [u8]),
    /// What a stream takes before it fails.
    Limit(&'a [u8]),
    /// A line that the command reads.
    Asked(&'a [u8]),
    /// A line that the command writes.
    Written(&'a [u8]),
    /// A line that it writes to standard error.
    Complaint(&'a [u8]),
    /// The status with which it ends.
    Status(&'a [u8]),
}

impl<'a> Line<'a> {
    /// Reads a line. A space at its end would not be seen, so it means nothing.
    pub fn read(text: &'a [u8]) -> Result<Line<'a>, TalkFault> {
        match text {
            [] => Ok(Line::Remark),
            [.., b' ' | b'\t' | b'\r'] => Err(TalkFault::NotUnderstood),
            [b'#', ..] => Ok(Line::Remark),
            [mark, behind @ ..] if MARKS.contains(mark) => match behind {
                [] => Line::by_mark(*mark, behind),
                [b' ', text @ ..] => Line::by_mark(*mark, text),
                _ => Err(TalkFault::NotUnderstood),
            },
            _ => Ok(Line::Written(text)),
        }
    }

    // What one of the marks says of the text behind it. A talk has a name.
    fn by_mark(mark: u8, text: &'a [u8]) -> Result<Line<'a>, TalkFault> {
        match mark {
            b'*' | b'+' if text.is_empty() => Err(TalkFault::NotUnderstood),
            b'*' => Ok(Line::Talk(text)),
            b'+' => Ok(Line::Begins(text)),
            b'$' => Ok(Line::Command(Program::Capd, text)),
            b'%' => Ok(Line::Command(Program::Capbench, text)),
            b'@' => Ok(Line::Limit(text)),
            b'>' => Ok(Line::Asked(text)),
            b'!' => Ok(Line::Complaint(text)),
            _ => Ok(Line::Status(text)),
        }
    }
}
