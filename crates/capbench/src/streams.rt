//! The streams of a run, which may fail.
ghost use Rattle.std.specs.Prelude.{Some};

use crate::limits::Reads;
use std::io;
use std::io::{ErrorKind, Read, Write};

/// What a run reads. Where its reads are counted, each gives one byte, and the one behind them fails.
#[derive(Drop)]
pub struct Input<'a> {
    bytes: &'a [u8],
    reads: Option<Reads>,
}

impl<'a> Input<'a> {
    /// These bytes, by these reads, or by as many as there are.
    pub fn new(bytes: &'a [u8], reads: Option<Reads>) -> Input<'a> {
        Input { bytes, reads }
    }
}

impl Read for Input<'_> {
    fn read(&mut self, buf: &mut [u8]) -> io::Result<usize> {
        let at_once = match self.reads {
            None => buf.len(),
            Some(Reads { count: 0, fault }) => return Err(io::Error::from(fault)),
            Some(Reads { count, fault }) => {
                self.reads = Some(Reads {
                    count: count - 1,
                    fault,
                });
                buf.len().min(1)
            }
        };
        let count = self.bytes.len().min(at_once);
        let (front, rest) = self.bytes.split_at(count);
        buf[..count].copy_from_slice(front);
        self.bytes = rest;
        Ok(count)
    }
}

/// Where a run writes: it takes so many bytes, and then fails. Of what is written at once, too, it takes what it has room for.
#[derive(Drop)]
pub struct Output<'a> {
    text: &'a mut Vec<u8>,
    room: usize,
}

impl<'a> Output<'a> {
    /// An output that puts so many bytes behind a text.
    pub fn new(text: &'a mut Vec<u8>, room: usize) -> Output<'a> {
        Output { text, room }
    }
}

impl Write for Output<'_> {
    ghost contents = { λ output. Some output.text.now.items };

    fn write(&mut self, bytes: &[u8]) -> io::Result<usize> {
        if self.room == 0 {
            return Err(io::Error::from(ErrorKind::BrokenPipe));
        }
        let count = bytes.len().min(self.room);
        self.room -= count;
        self.text.extend_from_slice(&bytes[..count])?;
        Ok(count)
    }

    fn flush(&mut self) -> io::Result<()> {
        Ok(())
    }
}
