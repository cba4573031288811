//! Readers and writers that fail: what their flags tell, and what a run over them leaves.

use crate::asserting::same;
use crate::runs::{ALL_KINDS, ALL_KINDS_ANSWERED};
use capscript::run;
use std::alloc::Global;
use std::io;
use std::io::{ErrorKind, Read, Write};
use texts::{ScriptFault, Watched};

// Reads once into so much room: how many bytes came, or none for a failure, whether the reader has failed by then, and whether
// it came to its end.
fn read_once<R: Read>(reader: &mut Watched<R>, room: usize) -> (Option<usize>, bool, bool) {
    let mut buffer = [0; 4];
    let count = reader.read(&mut buffer[..room.min(4)]).ok();
    (count, reader.failed(), reader.ended())
}

// An end is no failure. Only where there was room is it one.
#[test]
fn a_flag_tells_of_the_end(rt: HostRuntime) {
    let mut reader = Watched::new(b"ab".as_slice());
    for (nth, room, wanted) in [
        (1, 0, (Some(0), false, false)),
        (2, 4, (Some(2), false, false)),
        (3, 0, (Some(0), false, false)),
        (4, 1, (Some(0), false, true)),
        (5, 0, (Some(0), false, true)),
    ] {
        same(&rt, read_once(&mut reader, room), wanted, nth);
    }
}

// Gives so many bytes at a time, and fails once it was read so often.
#[derive(Drop)]
struct Failing<'a> {
    script: &'a [u8],
    at_once: usize,
    reads_left: usize,
}

impl Read for Failing<'_> {
    fn read(&mut self, buf: &mut [u8]) -> io::Result<usize> {
        if self.reads_left == 0 {
            return Err(io::Error::from(ErrorKind::Interrupted));
        }
        self.reads_left -= 1;
        let count = self.script.len().min(self.at_once).min(buf.len());
        let (front, rest) = self.script.split_at(count);
        buf[..count].copy_from_slice(front);
        self.script = rest;
        Ok(count)
    }
}

// Runs over a reader that may fail: whether the reader's flag is set, how the run ended, and whether it wrote nothing.
fn run_on_reads(alloc: Global, reads: Failing) -> (bool, Result<(), ScriptFault>, bool) {
    let mut text = Vec::new(alloc);
    let mut reader = Watched::new(reads);
    let mut writer = Watched::new(&mut text);
    let ended = run(alloc, &mut reader, &mut writer);
    (reader.failed(), ended, text.is_empty())
}

#[test]
fn a_read_that_fails_writes_nothing(rt: HostRuntime) {
    let script = ALL_KINDS.as_bytes();
    for at_once in [1, 7] {
        let wanted = script.len().div_ceil(at_once) + 1;
        for reads_left in 0..=wanted {
            let reads = Failing {
                script,
                at_once,
                reads_left,
            };
            let (flag, ended, is_silent) = run_on_reads(rt.alloc(), reads);
            let failed = reads_left < wanted;
            let fault = failed.then_some(ScriptFault::ReadFault);
            same(
                &rt,
                (flag, is_silent),
                (failed, failed),
                (at_once, reads_left),
            );
            same(&rt, ended.err(), fault, (at_once, reads_left));
        }
    }
}

// Takes so many bytes, a few at once, and then none; or fails then, and where it is flushed.
#[derive(Drop)]
struct Full<'a> {
    text: &'a mut Vec<u8>,
    room: usize,
    fails: bool,
}

impl Write for Full<'_> {
    fn write(&mut self, buf: &[u8]) -> io::Result<usize> {
        let count = buf.len().min(self.room).min(3);
        if count == 0 && self.fails {
            return Err(io::Error::from(ErrorKind::Interrupted));
        }
        self.room -= count;
        self.text.extend_from_slice(&buf[..count])?;
        Ok(count)
    }

    fn flush(&mut self) -> io::Result<()> {
        if self.fails {
            return Err(io::Error::from(ErrorKind::BrokenPipe));
        }
        Ok(())
    }
}

#[test]
fn a_flush_is_passed_on(rt: HostRuntime) {
    for fails in [false, true] {
        let mut text = Vec::new(rt.alloc());
        let mut writer = Watched::new(Full {
            text: &mut text,
            room: 0,
            fails,
        });
        let found = (writer.flush().is_ok(), writer.failed());
        same(&rt, found, (!fails, fails), "a flush");
    }
}

// Runs over a writer that takes so many bytes: whether the writer's flag is set, how the run ended, and what was written.
fn run_in_room(
    alloc: Global,
    room: usize,
    fails: bool,
) -> (bool, Result<(), ScriptFault>, Vec<u8>) {
    let mut text = Vec::new(alloc);
    let mut reader = Watched::new(ALL_KINDS.as_bytes());
    let mut writer = Watched::new(Full {
        text: &mut text,
        room,
        fails,
    });
    let ended = run(alloc, &mut reader, &mut writer);
    let failed = writer.failed();
    (failed, ended, text)
}

#[test]
fn a_write_that_fails_writes_a_beginning(rt: HostRuntime) {
    let wanted = ALL_KINDS_ANSWERED.as_bytes();
    for room in 0..=wanted.len() {
        for fails in [false, true] {
            let (failed, ended, text) = run_in_room(rt.alloc(), room, fails);
            let is_short = room < wanted.len();
            let fault = is_short.then_some(ScriptFault::WriteFault);
            same(&rt, failed, is_short, (room, fails));
            same(&rt, ended.err(), fault, (room, fails));
            same(&rt, text.as_slice(), &wanted[..room], (room, fails));
        }
    }
}
