//! A reader or writer for tests. Each call transfers few bytes, and one of the calls fails.

ghost use Rattle.std.specs.Prelude.{◌≡◌, ◌<◌, ◌≤◌, IfOk};

use std::io::{self, ErrorKind, Read, Write};

/// A call is interrupted if it brings the number of calls to a multiple of this.
const INTERRUPTED_EVERY: u32 = 4;

/// A stream over `inner` in which one call fails with `BrokenPipe`. Later calls succeed.
///
/// Every fourth call fails with `Interrupted`, unless it is a flush or the call that fails with `BrokenPipe`.
#[derive(Drop)]
pub struct FailingStream<T> {
    /// The stream that bytes are read from or written to.
    pub inner: T,
    /// The maximum number of bytes per read or write. It is at least 1.
    pub most: usize,
    /// The index of the call that fails, if any. The first call has index 0.
    pub failing: Option<u32>,
    /// The number of calls so far: reads, writes and flushes.
    pub made: u32,
    ghost some: { 0 < most },
}

impl<T> FailingStream<T> {
    /// Creates a stream on which no call has been made.
    pub fn new(inner: T, most: usize, failing: Option<u32>) -> Self
        requires { 0 < most }
        ensures inner { result.inner ≡ inner }
        ensures most { result.most ≡ most }
        ensures failing { result.failing ≡ failing }
        ensures made { result.made ≡ 0 }
    {
        FailingStream {
            inner,
            most,
            failing,
            made: 0,
        }
    }

    /// Counts a call, and fails if it is the one that must fail.
    fn count(&mut self) -> io::Result<()>
        ensures { self.new.inner ≡ self.old.inner }
    {
        let number = self.made;
        self.made = number.wrapping_add(1);
        if self.failing == Some(number) {
            return Err(io::Error::from(ErrorKind::BrokenPipe));
        }
        Ok(())
    }

    /// Counts a read or a write of `len` bytes, and returns how many bytes to transfer.
    fn count_bytes(&mut self, len: usize) -> io::Result<usize>
        ensures within { IfOk result (λ n. n ≤ len) }
        ensures some { IfOk result (λ n. n ≡ 0 → len ≡ 0) }
        ensures inner { self.new.inner ≡ self.old.inner }
    {
        self.count()?;
        if self.made % INTERRUPTED_EVERY == 0 {
            return Err(io::Error::from(ErrorKind::Interrupted));
        }
        Ok(len.min(self.most))
    }
}

impl<T: Read> Read for FailingStream<T> {
    ghost remaining = { λ stream. T.remaining stream.inner };

    fn read(&mut self, buf: &mut [u8]) -> io::Result<usize> {
        let len = self.count_bytes(buf.len())?;
        self.inner.read(&mut buf[..len])
    }
}

impl<T: Write> Write for FailingStream<T> {
    ghost contents = { λ stream. T.contents stream.inner };

    fn write(&mut self, buf: &[u8]) -> io::Result<usize> {
        let len = self.count_bytes(buf.len())?;
        self.inner.write(&buf[..len])
    }

    fn flush(&mut self) -> io::Result<()> {
        self.count()?;
        self.inner.flush()
    }
}
