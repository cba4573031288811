//! Lines of a script and what is answered to them, where memory may be refused.

use crate::fault::Fault;
use capbits::{ClientId, PassId};
use capcore::Core;
use capexplain::{append_audit_line, read_line, reply_lines};
use capstep::stop::Stop;
use capstep::{Event, Reply, Row};
use std::alloc::{AllocError, Global};
use std::io::Write;
use texts::ScriptFault;

/// How often something is tried that finds no memory: more often than memory is refused in a row.
pub(crate) const TRIES: u32 = 16;

const PASS: PassId = PassId(1);

/// The lines of a text.
pub(crate) fn lines_of(alloc: Global, text: &[u8]) -> Result<Vec<&[u8]>, AllocError> {
    text.split(|byte| *byte == b'\n').collect(alloc)
}

/// The event that a line says, with the client that it is about. Where it finds no memory it is read again.
pub(crate) fn event_of(alloc: Global, line: &[u8]) -> Result<(Option<ClientId>, Event), Fault> {
    for _ in 0..TRIES {
        match read_line(alloc, 1, line) {
            Ok(Some(said)) => return Ok(said),
            Err(ScriptFault::NoMemory) => (),
            _ => return Err(Fault::Text),
        }
    }
    Err(Fault::NoMemory)
}

/// Has the core answer an event. What it promises of the reply stays behind here.
pub(crate) fn apply(core: &mut Core, event: Event) -> Result<Reply, Stop> {
    core.apply(PASS, event)
}

/// What was answered, as far as who asked has to know it.
#[derive(Clone, Copy)]
pub(crate) enum Heard {
    /// It was answered.
    Answered,
    /// It was answered, and is not published yet.
    Late,
    /// It found no memory when it was served.
    Starved,
    /// The event found no memory.
    Stopped,
    /// There was a fault, which the transcript keeps.
    Failed,
}

/// What is written of a script that is played. It keeps its first fault, behind which no line says an event and nothing is written: so who
/// plays need not look for a fault until the end.
#[derive(Drop)]
pub(crate) struct Transcript<'w, W> {
    alloc: Global,
    writer: &'w mut W,
    fault: Option<Fault>,
}

impl<'w, W: Write> Transcript<'w, W> {
    /// A transcript of which nothing is written.
    pub fn new(alloc: Global, writer: &'w mut W) -> Transcript<'w, W> {
        Transcript {
            alloc,
            writer,
            fault: None,
        }
    }

    /// The event that a line says.
    pub fn event(&mut self, line: &[u8]) -> Option<Event> {
        if self.fault.is_some() {
            return None;
        }
        match event_of(self.alloc, line) {
            Ok((_, event)) => Some(event),
            Err(fault) => {
                self.fail(fault);
                None
            }
        }
    }

    /// Writes an answer, as `capd run` does. Where its text finds no memory it is made again.
    pub fn tell(&mut self, reply: &Reply) -> Heard {
        for _ in 0..TRIES {
            if let Ok(text) = reply_lines(self.alloc, reply) {
                self.write(text.as_slice());
                return match reply {
                    Reply::OutOfMemory => Heard::Starved,
                    _ => Heard::Answered,
                };
            }
        }
        self.fail(Fault::NoMemory);
        Heard::Failed
    }

    /// Writes that an event found no memory, or that the history is full, which stays so.
    pub fn tell_stop(&mut self, stop: Stop) -> Heard {
        match stop {
            Stop::NoMemory => {
                self.write(b"stopped\n");
                Heard::Stopped
            }
            Stop::Full => {
                self.write(b"full\n");
                Heard::Answered
            }
        }
    }

    /// Writes the line of each row of a history. Where their text finds no memory it is made again.
    pub fn tell_rows(&mut self, rows: &[Row]) {
        for _ in 0..TRIES {
            if let Ok(text) = rows_text(self.alloc, rows) {
                return self.write(text.as_slice());
            }
        }
        self.fail(Fault::NoMemory);
    }

    /// Writes all of a text.
    pub fn write(&mut self, text: &[u8]) {
        if self.fault.is_none() && self.writer.write_all(text).is_err() {
            self.fail(Fault::WriteFailed);
        }
    }

    /// Nothing more is played. The first fault counts.
    pub fn fail(&mut self, fault: Fault) {
        if self.fault.is_none() {
            self.fault = Some(fault);
        }
    }

    /// The sum that the work comes to, or the first fault.
    pub fn end(&self, sum: u64) -> Result<u64, Fault> {
        match self.fault {
            None => Ok(sum),
            Some(fault) => Err(fault),
        }
    }
}

fn rows_text(alloc: Global, rows: &[Row]) -> Result<Vec<u8>, AllocError> {
    let mut text = Vec::new(alloc);
    for row in rows {
        append_audit_line(&mut text, row)?;
        text.push(b'\n')?;
    }
    Ok(text)
}
