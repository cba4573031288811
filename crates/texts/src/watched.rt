//! Readers and writers that remember whether they failed, and whether they came to their end.
ghost use Rattle.std.specs.Prelude.{◌≡◌, ◌<◌, ◌↔◌, ◌⊎◌, IsTrue, IsFalse, IsErr, OnOk, Ok, length};
ghost use Rattle.std.specs.Io.{ReadsAtMost, WritesAtMost};
ghost use Rattle.std.specs.Io.KnownBytes.{Appends, Keeps, ReadConsumes, WriteAppends};
ghost use Rattle.texts.specs.Watched.{WouldWait};

use std::io;
use std::io::{ErrorKind, Read, Write};

/// A reader or a writer that reads and writes as the inner one does, with three flags, which are clear at first and stay once they are
/// set. `failed` is set once a read, a write or a flush failed, or a write of one byte or more took none; `blocked`, once a read failed
/// since it would have had to wait; `ended`, once a read of one byte or more gave none.
#[derive(Drop)]
pub struct Watched<T> {
    inner: T,
    failed: bool,
    blocked: bool,
    ended: bool,
}

impl<T> Watched<T> {
    ghost use Rattle.texts.specs.Watched.{has_blocked, has_ended, has_failed, inner_of};

    /// Watches this reader or writer. All flags are clear at first.
    pub fn new(inner: T) -> Self
        ensures same { inner_of result ≡ inner }
        ensures clear { IsFalse (has_failed result) }
        ensures unblocked { IsFalse (has_blocked result) }
        ensures unended { IsFalse (has_ended result) }
    {
        Watched {
            inner,
            failed: false,
            blocked: false,
            ended: false,
        }
    }

    /// Whether a call on it failed.
    pub fn failed(&self) -> bool
        ensures { result ≡ has_failed self.now }
    {
        self.failed
    }

    /// Whether a read on it failed since the stream is one that doesn't wait, and had nothing yet.
    pub fn blocked(&self) -> bool
        ensures { result ≡ has_blocked self.now }
    {
        self.blocked
    }

    /// Whether a read came to the end.
    pub fn ended(&self) -> bool
        ensures { result ≡ has_ended self.now }
    {
        self.ended
    }
}

impl<R: Read> Read for Watched<R> {
    ghost use Rattle.texts.specs.Watched.{has_blocked, has_ended, has_failed, inner_of};

    ghost remaining = { λ reader. R.remaining (inner_of reader) };

    fn read(&mut self, buf: &mut [u8]) -> io::Result<usize>
        ensures bound { ReadsAtMost result buf.new }
        ensures bytes { ReadConsumes (R.remaining (inner_of self.old)) (R.remaining (inner_of self.new)) result buf.new }
        ensures flag { IsTrue (has_failed self.new) ↔ (IsTrue (has_failed self.old) ⊎ IsErr result) }
        ensures blocked { IsTrue (has_blocked self.new) ↔ (IsTrue (has_blocked self.old) ⊎ WouldWait result) }
        ensures ended { IsTrue (has_ended self.new)
            ↔ (IsTrue (has_ended self.old) ⊎ ((result ≡ Ok 0) × (0 < length buf.new))) }
    {
        let result = self.inner.read(buf);
        self.failed = self.failed || result.is_err();
        self.blocked = self.blocked || would_block(&result);
        let gave_none = matches!(result, Ok(0)) && !buf.is_empty();
        self.ended = self.ended || gave_none;
        result
    }
}

impl<W: Write> Write for Watched<W> {
    ghost use Rattle.texts.specs.Watched.{has_failed, inner_of};

    ghost contents = { λ writer. W.contents (inner_of writer) };

    fn write(&mut self, buf: &[u8]) -> io::Result<usize>
        ensures bound { WritesAtMost result buf.now }
        ensures bytes { WriteAppends (W.contents (inner_of self.old)) (W.contents (inner_of self.new)) result buf.now }
        ensures flag { IsTrue (has_failed self.new)
            ↔ (IsTrue (has_failed self.old) ⊎ IsErr result ⊎ ((result ≡ Ok 0) × (0 < length buf.now))) }
    {
        let result = self.inner.write(buf);
        let took_none = matches!(result, Ok(0)) && !buf.is_empty();
        self.failed = self.failed || result.is_err() || took_none;
        result
    }

    fn write_all(&mut self, buf: &[u8]) -> io::Result<()>
        ensures bytes { OnOk result (Appends (W.contents (inner_of self.old)) (W.contents (inner_of self.new)) buf.now) }
        ensures flag { IsTrue (has_failed self.new) ↔ (IsTrue (has_failed self.old) ⊎ IsErr result) }
    {
        let result = self.inner.write_all(buf);
        self.failed = self.failed || result.is_err();
        result
    }

    fn flush(&mut self) -> io::Result<()>
        ensures bytes { Keeps (W.contents (inner_of self.old)) (W.contents (inner_of self.new)) }
        ensures flag { IsTrue (has_failed self.new) ↔ (IsTrue (has_failed self.old) ⊎ IsErr result) }
    {
        let result = self.inner.flush();
        self.failed = self.failed || result.is_err();
        result
    }
}

// Whether a read failed since the stream doesn't wait.
fn would_block(read: &io::Result<usize>) -> bool
    ensures { IsTrue result ↔ WouldWait read.now }
{
    match read {
        Ok(_) => false,
        Err(error) => error.kind() == ErrorKind::WouldBlock,
    }
}
