//! Runs of a program, and what comes of them.
ghost use Rattle.std.specs.Prelude.{◌≡◌, take};

use crate::limits::Limits;
use crate::streams::Input;
use crate::talk_fault::TalkFault;
use crate::talk_line::Line;
use crate::talk_text::push_line;
use std::alloc::Global;

/// A program that is asked.
#[derive(Clone, Copy)]
pub enum Program {
    /// The one that decides and explains.
    Capd,
    /// The one for measuring.
    Capbench,
}

/// What a program writes, what it says of faults, and its status.
#[derive(PartialEq)]
pub struct Outcome {
    /// What it writes.
    pub written: Vec<u8>,
    /// What it says of faults.
    pub complaints: Vec<u8>,
    pub status: u8,
}

// Not derived: so the proof of a function that drops one has a single call there.
impl Drop for Outcome {
    fn drop(self) {
        let Outcome {
            written: _,
            complaints: _,
            status: _,
        } = self;
    }
}

impl Outcome {
    /// Nothing is written or said, and the status is 0.
    pub fn new(alloc: Global) -> Outcome {
        Outcome {
            written: Vec::new(alloc),
            complaints: Vec::new(alloc),
            status: 0,
        }
    }

    // One line more of it.
    fn take(&mut self, line: Line<'_>) -> Result<(), TalkFault> {
        match line {
            Line::Written(text) => push_line(&mut self.written, text),
            Line::Complaint(text) => push_line(&mut self.complaints, text),
            Line::Status(text) => {
                self.status = status(text)?;
                Ok(())
            }
            _ => Ok(()),
        }
    }

    // Of both texts what their streams take is left.
    fn cut(&mut self, limits: Limits)
        ensures written { self.new.written.items ≡ take limits.room self.old.written.items }
        ensures complaints { self.new.complaints.items ≡ take limits.fault_room self.old.complaints.items }
    {
        self.written.truncate(limits.room);
        self.complaints.truncate(limits.fault_room);
    }
}

/// A run of a program: its words, what it reads, what its streams take, and its outcome as the talk has it.
pub struct Run {
    pub program: Program,
    /// The words behind the program's name.
    pub words: Vec<Vec<u8>>,
    /// What it reads.
    pub input: Vec<u8>,
    /// What its streams take before they fail.
    pub limits: Limits,
    /// The outcome that is wanted, of whose texts the streams take all.
    pub wanted: Outcome,
}

// Not derived: so the proof of a function that drops one has a single call there.
impl Drop for Run {
    fn drop(self) {
        let Run {
            program: _,
            words: _,
            input: _,
            limits: _,
            wanted: _,
        } = self;
    }
}

impl Run {
    /// A run on these words that reads nothing, whose streams take all, and of which nothing is wanted but the status 0.
    pub fn new(alloc: Global, program: Program, words: Vec<Vec<u8>>) -> Run {
        Run {
            program,
            words,
            input: Vec::new(alloc),
            limits: Limits::none(),
            wanted: Outcome::new(alloc),
        }
    }

    /// One line more of what the program is given, or is to answer.
    pub(crate) fn take(&mut self, line: Line<'_>) -> Result<(), TalkFault> {
        match line {
            Line::Asked(text) => return push_line(&mut self.input, text),
            Line::Limit(text) => self.limits.take(text)?,
            line => self.wanted.take(line)?,
        }
        self.wanted.cut(self.limits);
        Ok(())
    }

    /// The stream that it reads.
    pub fn reader(&self) -> Input<'_> {
        Input::new(self.input.as_slice(), self.limits.reads)
    }
}

// The status that a program can end with.
fn status(text: &[u8]) -> Result<u8, TalkFault> {
    match text {
        [digit @ b'0'..=b'3'] => Ok(*digit - b'0'),
        _ => Err(TalkFault::NotUnderstood),
    }
}
