//! What is written of talks.
ghost use Rattle.std.specs.Prelude.{◌≤◌};

use crate::book::Talk;
use crate::run::Outcome;
use crate::talk_fault::{Place, TalkFault};
use std::io::Write;

/// A writer of what came of talks. Once it failed it takes nothing more: whoever writes asks for that at the end of a talk.
#[derive(Drop)]
pub struct Page<'w, W> {
    writer: &'w mut W,
    failed: bool,
    // Whether the talk agrees, as far as it was played.
    agrees: bool,
    // How many talks differ.
    differing: usize,
}

impl<'w, W: Write> Page<'w, W> {
    /// A page of which nothing is written.
    pub fn new(writer: &'w mut W) -> Page<'w, W> {
        Page {
            writer,
            failed: false,
            agrees: true,
            differing: 0,
        }
    }

    /// Begins the line of a talk, with the topic of its file.
    pub fn begin(&mut self, file: &str, talk: &Talk<'_>) {
        self.write(topic(file).as_bytes());
        self.write(b": ");
        self.write(talk.name);
        self.agrees = true;
    }

    /// Compares what came of a run with what was wanted, and writes both where they differ. The first that differs ends the line of its talk.
    pub fn compare(&mut self, wanted: &Outcome, came: &Outcome) {
        if *came == *wanted {
            return;
        }
        if self.agrees {
            self.write(b": differs\n");
        }
        self.agrees = false;
        self.write(b"wanted:\n");
        self.write_outcome(wanted);
        self.write(b"came:\n");
        self.write_outcome(came);
    }

    /// Ends the line of a talk that agrees, or counts it with those that differ.
    pub fn end(&mut self, talk: &Talk<'_>) -> Result<(), Place> {
        if self.agrees {
            self.write(b": ok\n");
        } else {
            self.differing = self.differing.saturating_add(1);
        }
        if self.failed {
            return Err(TalkFault::WriteFailed.at(talk.line));
        }
        Ok(())
    }

    /// Says how many talks differ, if any does, and returns the status: 0 where all agree, else 1.
    pub fn report(&self, faults: &mut impl Write) -> u8
        ensures { result ≤ 1 }
    {
        let differing = self.differing;
        if differing == 0 {
            return 0;
        }
        let _ = writeln!(faults, "capbench: {differing} talks differ");
        1
    }

    // Writes an outcome as a talk has it.
    fn write_outcome(&mut self, outcome: &Outcome) {
        self.write(outcome.written.as_slice());
        self.write(outcome.complaints.as_slice());
        // A status has one digit.
        self.write(&[b'=', b' ', b'0'.saturating_add(outcome.status), b'\n']);
    }

    fn write(&mut self, text: &[u8]) {
        self.failed = self.failed || self.writer.write_all(text).is_err();
    }
}

// The name of a file, without its folder and its ending.
fn topic(file: &str) -> &str {
    let name = match file.rsplit_once('/') {
        Some((_, name)) => name,
        None => file,
    };
    name.strip_suffix(".talk").unwrap_or(name)
}
