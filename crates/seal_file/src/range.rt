//! A range of the bytes of a file, and a writer that passes on only the bytes of a range.

use std::io::{self, Write};

/// The bytes of a file from a place on, up to a number of bytes.
#[derive(Clone, Copy)]
pub struct Range {
    /// The place of the first byte.
    pub start: u64,
    /// The number of bytes, of which the file may have fewer.
    pub len: u64,
}

impl Range {
    /// Returns the range without its first `count` bytes.
    pub fn after(self, count: usize) -> Range {
        Range {
            start: self.start.saturating_add(count as u64),
            len: self.len.saturating_sub(count as u64),
        }
    }
}

/// A writer that passes on only the bytes of a range.
#[derive(Drop)]
pub struct RangeWriter<'a, W: Write> {
    inner: &'a mut W,
    skipped: u64,
    left: u64,
}

impl<'a, W: Write> RangeWriter<'a, W> {
    /// Creates a writer that passes on only the bytes of a range to `inner`.
    pub fn new(inner: &'a mut W, range: Range) -> RangeWriter<'a, W> {
        RangeWriter {
            inner,
            skipped: range.start,
            left: range.len,
        }
    }
}

impl<W: Write> Write for RangeWriter<'_, W> {
    fn write(&mut self, buf: &[u8]) -> io::Result<usize> {
        let skipped = self.skipped.min(buf.len() as u64) as usize;
        let rest = &buf[skipped..];
        let taken = self.left.min(rest.len() as u64) as usize;
        self.inner.write_all(&rest[..taken])?;
        self.skipped -= skipped as u64;
        self.left -= taken as u64;
        Ok(buf.len())
    }

    fn flush(&mut self) -> io::Result<()> {
        self.inner.flush()
    }
}
