//! Inputs that are read at any position.

ghost use Rattle.std.specs.Prelude.{ℕ, List, ◌≡◌, ◌+◌, ◌-◌, ◌^◌, ◌≤◌, Option, None, length, min, take, drop, IsOk, IfOk, IfSome, OnErr};
ghost use Rattle.sealed_file.specs.Reader.{MayGive};

use crate::stream::fill;
use std::fs::File;
use std::io::{self, AsBytes, Cursor, Read, Seek, SeekFrom};
use std::os::unix::fs::FileExt;

/// Bytes that can be read at any position, such as a file or a slice.
///
/// The ghost member `bytes` is the bytes, for a type of which a contract can say what they are. For another, such as a file, it
/// is `None`: then no clause says that a call succeeds, nor, but for `contents`, what is read.
///
/// The ghost member `contents` is for a type whose calls may fail, or whose bytes may change between two calls: a read that
/// succeeds gives bytes of one of these contents. Where they are `None`, it may give any bytes.
///
/// # Examples
///
/// An input that counts its calls, and fails at one of them. A read has written half of `buf` by then. What a call reads that
/// succeeds is known.
/// From `crates/sealed_file_tests/src/tests/reader.rt`:
///
/// ```
/// impl ReadAt for FailingInput<'_> {
///     ghost use Rattle.std.specs.Prelude.{None, Some, [], ◌∷◌};
///
///     ghost bytes = { λ _. None };
///
///     ghost contents = { λ input. Some (input.bytes.now ∷ []) };
///
///     fn size(&mut self) -> io::Result<u64> {
///         self.count()?;
///         self.bytes.size()
///     }
///
///     fn read_at(&mut self, at: u64, buf: &mut [u8]) -> io::Result<usize> {
///         let half = buf.len() / 2;
///         self.bytes.read_at(at, &mut buf[..half])?;
///         self.count()?;
///         self.bytes.read_at(at, buf)
///     }
/// }
/// ```
pub trait ReadAt {
    // The bytes, where they are known.
    ghost bytes: { Self → Option (List ℕ) };

    // The contents that it may have, where they are known. A call may fail all the same.
    ghost contents: { Self → Option (List (List ℕ)) } = { λ _. None };

    /// Returns how many bytes there are.
    fn size(&mut self) -> io::Result<u64>
        ensures known { IfSome (bytes self.old) (λ all. IsOk result) }
        ensures value { IfSome (bytes self.old) (λ all. IfOk result (λ n. n ≡ length all)) }
        ensures same { bytes self.new ≡ bytes self.old }
        ensures steady { contents self.new ≡ contents self.old };

    /// Reads the bytes from `at` on into the front of `buf`, and returns how many: fewer than `buf` has only at the end. On an
    /// error any bytes of `buf` may be others.
    fn read_at(&mut self, at: u64, buf: &mut [u8]) -> io::Result<usize>
        ensures within { IfOk result (λ n. n ≤ length buf.new) }
        ensures known { IfSome (bytes self.old) (λ all. IsOk result) }
        ensures count { IfSome (bytes self.old) (λ all. IfOk result (λ n. n ≡ min (length buf.old) (length all - at))) }
        ensures value { IfSome (bytes self.old) (λ all. IfOk result (λ n. take n buf.new ≡ take n (drop at all))) }
        ensures given { IfOk result (λ n. MayGive (contents self.old) at (take n buf.new)) }
        ensures same { bytes self.new ≡ bytes self.old }
        ensures steady { contents self.new ≡ contents self.old };
}

/// The bytes from `at` on, or none if there are fewer.
pub(crate) fn bytes_from_offset(bytes: &[u8], at: u64) -> &[u8]
    ensures { result.now ≡ drop at bytes.now }
{
    if bytes.len() as u64 <= at {
        &[]
    } else {
        &bytes[at as usize..]
    }
}

/// Copies the bytes from `at` on into the front of `buf`, as many as there are and fit, and returns how many.
pub(crate) fn read_slice_at(bytes: &[u8], at: u64, buf: &mut [u8]) -> usize
    ensures count { result ≡ min (length buf.old) (length bytes.now - at) }
    ensures copied { take result buf.new ≡ take result (drop at bytes.now) }
    ensures rest { drop result buf.new ≡ drop result buf.old }
{
    let rest = bytes_from_offset(bytes, at);
    let count = rest.len().min(buf.len());
    buf[..count].copy_from_slice(&rest[..count]);
    count
}

impl ReadAt for &[u8] {
    ghost use Rattle.std.specs.Prelude.{Some, [], ◌∷◌};

    ghost bytes = { λ slice. Some slice.now };

    ghost contents = { λ slice. Some (slice.now ∷ []) };

    fn size(&mut self) -> io::Result<u64> {
        Ok(self.len() as u64)
    }

    fn read_at(&mut self, at: u64, buf: &mut [u8]) -> io::Result<usize> {
        let all: &[u8] = *self;
        Ok(read_slice_at(all, at, buf))
    }
}

impl<T: AsBytes> ReadAt for Cursor<T> {
    ghost use Rattle.std.specs.Io.Cursor.{cursor_inner};
    ghost use Rattle.std.specs.Option.{option_map};
    ghost use Rattle.std.specs.Prelude.{[], ◌∷◌};

    ghost bytes = { λ cursor. T.bytes (cursor_inner cursor) };

    ghost contents = { λ cursor. option_map (λ all. all ∷ []) (T.bytes (cursor_inner cursor)) };

    fn size(&mut self) -> io::Result<u64> {
        Ok(self.get_ref().as_byte_slice().len() as u64)
    }

    fn read_at(&mut self, at: u64, buf: &mut [u8]) -> io::Result<usize> {
        Ok(read_slice_at(self.get_ref().as_byte_slice(), at, buf))
    }
}

/// The bytes of a file from a position on.
#[derive(Drop)]
struct FileFrom<'a> {
    file: &'a File,
    at: u64,
}

impl Read for FileFrom<'_> {
    ghost use Rattle.std.specs.Io.{ReadsAtMost};
    ghost use Rattle.std.specs.Io.KnownBytes.{ReadConsumes};

    fn read(&mut self, buf: &mut [u8]) -> io::Result<usize>
        ensures bound { ReadsAtMost result buf.new }
        ensures bytes { ReadConsumes None None result buf.new }
        ensures advances { IfOk result (λ n. self.new.at ≡ min (self.old.at + n) (2 ^ 64 - 1)) }
        ensures stays { OnErr result (self.new.at ≡ self.old.at) }
    {
        let count = self.file.read_at(buf, self.at)?;
        self.at = self.at.saturating_add(count as u64);
        Ok(count)
    }
}

impl ReadAt for File {
    ghost use Rattle.std.specs.Prelude.{None};

    ghost bytes = { λ _. None };

    fn size(&mut self) -> io::Result<u64> {
        self.seek(SeekFrom::End(0))
    }

    fn read_at(&mut self, at: u64, buf: &mut [u8]) -> io::Result<usize> {
        fill(&mut FileFrom { file: self, at }, buf)
    }
}
