//! What the streams of a run take before they fail.

use crate::talk_fault::TalkFault;
use capbits::read_u32;
use std::io::ErrorKind;

// A stream that is limited.
#[derive(Clone, Copy)]
enum Stream {
    // What is read, of which a read fails so.
    Read(ErrorKind),
    Output,
    Faults,
}

// The words that name them, with the space behind.
const STREAMS: &[(&[u8], Stream)] = &[
    (b"reads ", Stream::Read(ErrorKind::BrokenPipe)),
    (b"waits ", Stream::Read(ErrorKind::WouldBlock)),
    (b"room ", Stream::Output),
    (b"fault room ", Stream::Faults),
];

/// Reads of one byte each, and the one behind them, which fails.
#[derive(Clone, Copy)]
pub struct Reads {
    /// How many there are before the one that fails.
    pub count: usize,
    /// How that one fails.
    pub fault: ErrorKind,
}

/// What the streams of a run take before they fail.
#[derive(Clone, Copy)]
pub struct Limits {
    /// The reads that there are; none where no read fails.
    pub reads: Option<Reads>,
    /// How many bytes the output takes.
    pub room: usize,
    /// How many bytes the stream for faults takes.
    pub fault_room: usize,
}

impl Limits {
    /// No stream fails.
    pub fn none() -> Limits {
        Limits {
            reads: None,
            room: usize::MAX,
            fault_room: usize::MAX,
        }
    }

    /// Reads one more limit: which stream it is for, and a number. No stream has two.
    pub fn take(&mut self, text: &[u8]) -> Result<(), TalkFault> {
        let Some((stream, count)) = stream_and_count(text) else {
            return Err(TalkFault::NotUnderstood);
        };
        match stream {
            Stream::Read(fault) if self.reads.is_none() => self.reads = Some(Reads {
                count,
                fault,
            }),
            Stream::Output if self.room == usize::MAX => self.room = count,
            Stream::Faults if self.fault_room == usize::MAX => self.fault_room = count,
            _ => return Err(TalkFault::NotUnderstood),
        }
        Ok(())
    }
}

// The stream that a text names, and the number behind that.
fn stream_and_count(text: &[u8]) -> Option<(Stream, usize)> {
    for (name, stream) in STREAMS {
        if let Some(number) = text.strip_prefix(*name) {
            return match read_u32(number) {
                Some(count) => Some((*stream, count as usize)),
                None => None,
            };
        }
    }
    None
}
