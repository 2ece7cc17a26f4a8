//! A reader that shows on standard error how much was read, and records whether the last call failed.

ghost use Rattle.std.specs.Prelude.{◌≡◌, ◌≤◌};

use std::fmt;
use std::io::{self, Read};

/// The number of bytes after which the line is written again.
const STEP: u64 = 1 << 24;

/// The number of bytes in a MiB.
const MIB: u64 = 1 << 20;

/// The number of marks in a full bar.
const WIDTH: u64 = 50;

/// A reader that can write to standard error how much was read, and records whether the last call failed.
#[derive(Drop)]
pub struct Source<'a, R: Read + Drop> {
    rt: &'a HostRuntime,
    input: R,
    len: Option<u64>,
    is_shown: bool,
    read: u64,
    has_failed: bool,
}

impl<'a, R: Read + Drop> Source<'a, R> {
    /// Creates a reader over `input`, which has `len` bytes if that is known.
    pub fn new(rt: &'a HostRuntime, input: R, len: Option<u64>, is_shown: bool) -> Self
        ensures input { result.input ≡ input }
        ensures len { result.len ≡ len }
        ensures is_shown { result.is_shown ≡ is_shown }
        ensures read { result.read ≡ 0 }
    {
        Source {
            rt,
            input,
            len,
            is_shown,
            read: 0,
            has_failed: false,
        }
    }

    /// Returns whether the last call failed. A call that is interrupted is repeated, and so is not the last.
    pub fn has_failed(&self) -> bool
        ensures { result ≡ self.now.has_failed }
    {
        self.has_failed
    }

    /// Writes the line: a bar and the percentage, or the MiB if the length is not known. A failure to write it is ignored.
    fn show(&self) {
        if !self.is_shown {
            return;
        }
        match self.len {
            Some(len) => {
                let bar = Bar {
                    percent: percent_of(self.read, len),
                };
                let _ = eprint!(self.rt; "\r{bar}");
            }
            None => {
                let mib = self.read / MIB;
                let _ = eprint!(self.rt; "\r{mib} MiB");
            }
        }
    }

    /// Ends the line.
    pub fn end(&self) {
        self.show();
        if self.is_shown {
            let _ = eprintln!(self.rt; "");
        }
    }
}

/// A bar that is filled to a percentage, and the percentage.
#[derive(Clone, Copy)]
struct Bar {
    percent: u64,
}

impl fmt::Display for Bar {
    fn fmt<W: fmt::Write>(&self, f: &mut fmt::Formatter<W>) -> fmt::Result {
        write!(f, "[")?;
        for mark in 0..WIDTH {
            let printed = if mark * (100 / WIDTH) < self.percent {
                '#'
            } else {
                '.'
            };
            write!(f, "{printed}")?;
        }
        write!(f, "] {:>3} %", self.percent)
    }
}

/// Returns the percentage of `len` that was read, at most 100.
fn percent_of(read: u64, len: u64) -> u64
    ensures { result ≤ 100 }
{
    if read >= len {
        return 100;
    }
    (u128::from(read) * 100 / u128::from(len)) as u64
}

impl<R: Read + Drop> Read for Source<'_, R> {
    ghost remaining = { λ source. R.remaining source.input };

    fn read(&mut self, buf: &mut [u8]) -> io::Result<usize> {
        match self.input.read(buf) {
            Ok(count) => {
                self.has_failed = false;
                let before = self.read / STEP;
                self.read = self.read.saturating_add(count as u64);
                if self.read / STEP != before {
                    self.show();
                }
                Ok(count)
            }
            Err(error) => {
                self.has_failed = true;
                Err(error)
            }
        }
    }
}
