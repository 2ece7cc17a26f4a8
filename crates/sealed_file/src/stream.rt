//! Reading and writing pieces of a stream.

ghost use Rattle.std.specs.Prelude.{◌≡◌, ◌+◌, ◌<◌, ◌≤◌, length, vec_len, take, drop, IfOk, IfSome, OnOk, OnErr};
ghost use Rattle.std.specs.Io.KnownBytes.{Appends, Consumes, IsAtEnd, Keeps};
ghost use Rattle.std.specs.Vec.{vec_capacity};
ghost use Rattle.sealed_file.specs.Format.{sealed_chunk_len};
ghost use Rattle.sealed_file.specs.Opening.{header_len};
ghost use Rattle.sealed_file.specs.Streams.{AppendsBeginning, TakesFront};

use crate::chunk::SEALED_CHUNK_LEN;
use crate::header::HEADER_LEN;
use std::alloc::Global;
use std::io::{self, ErrorKind, Read, Write};

/// The error of a stream that is interrupted too many times in a row.
const ALWAYS_INTERRUPTED: &str = "interrupted too often";

/// Two buffers, each with room for a sealed chunk.
pub(crate) fn buffers(alloc: Global) -> io::Result<(Vec<u8>, Vec<u8>)>
    ensures first { IfOk result (λ buffers. sealed_chunk_len ≤ vec_capacity buffers.0) }
    ensures second { IfOk result (λ buffers. sealed_chunk_len ≤ vec_capacity buffers.1) }
{
    let first = Vec::with_capacity(alloc, SEALED_CHUNK_LEN)?;
    let second = Vec::with_capacity(alloc, SEALED_CHUNK_LEN)?;
    Ok((first, second))
}

/// Reads once into `buf` from `at` on.
fn read_once_at<R: Read>(input: &mut R, buf: &mut [u8], at: usize) -> io::Result<usize>
    requires { at < length buf.old }
    ensures front { take at buf.new ≡ take at buf.old }
    ensures fits { IfOk result (λ n. at + n ≤ length buf.new) }
    ensures ok { IfOk result (λ n. Consumes (R.remaining input.old) (R.remaining input.new)
        (take n (drop at buf.new))) }
    ensures err { OnErr result (Keeps (R.remaining input.old) (R.remaining input.new)) }
    ensures end { IfOk result (λ n. n ≡ 0 → IsAtEnd (R.remaining input.new)) }
{
    input.read(&mut buf[at..])
}

/// Fills `buf`, and returns the number of bytes read, which is less than its length only at the end of the input.
pub(crate) fn fill<R: Read>(input: &mut R, buf: &mut [u8]) -> io::Result<usize>
    ensures within { IfOk result (λ n. n ≤ length buf.new) }
    ensures bytes { IfOk result (λ n. Consumes (R.remaining input.old) (R.remaining input.new) (take n buf.new)) }
    ensures end { IfOk result (λ n. n < length buf.new → IsAtEnd (R.remaining input.new)) }
{
    let mut filled = 0;
    for _ in 0..u64::MAX {
        if filled >= buf.len() {
            return Ok(filled);
        }
        match read_once_at(input, buf, filled) {
            Ok(0) => return Ok(filled),
            Ok(n) => filled += n,
            Err(error) => {
                if error.kind() != ErrorKind::Interrupted {
                    return Err(error);
                }
            }
        }
    }
    Err(io::Error::other(ALWAYS_INTERRUPTED))
}

/// Reads the next `len` bytes into `piece`, or the rest of the input if it is shorter.
pub(crate) fn read_piece<R: Read>(input: &mut R, len: usize, piece: &mut Vec<u8>) -> io::Result<()>
    ensures size { OnOk result (vec_len piece.new ≤ len) }
    ensures bytes { OnOk result (IfSome (R.remaining input.old) (λ bytes.
        TakesFront len bytes piece.new.items (R.remaining input.new))) }
{
    piece.resize(len, 0)?;
    let count = fill(input, piece)?;
    piece.truncate(count);
    Ok(())
}

/// Reads the header of a sealed file, or the part of it that the file has.
pub(crate) fn read_header<R: Read>(input: &mut R, header: &mut Vec<u8>) -> io::Result<()>
    ensures { OnOk result (IfSome (R.remaining input.old) (λ file.
        TakesFront header_len file header.new.items (R.remaining input.new))) }
{
    read_piece(input, HEADER_LEN, header)
}

/// Writes all of the bytes, or the beginning of them if that fails.
pub(crate) fn write_bytes<W: Write>(output: &mut W, bytes: &[u8]) -> io::Result<()>
    ensures ok { OnOk result (Appends (W.contents output.old) (W.contents output.new) bytes.now) }
    ensures err { OnErr result
        (AppendsBeginning (W.contents output.old) (W.contents output.new) bytes.now) }
{
    let mut rest = bytes;
    for _ in 0..u64::MAX {
        if rest.is_empty() {
            return Ok(());
        }
        match output.write(rest) {
            Ok(0) => return Err(io::Error::from(ErrorKind::WriteZero)),
            Ok(n) => rest = &rest[n..],
            Err(error) => {
                if error.kind() != ErrorKind::Interrupted {
                    return Err(error);
                }
            }
        }
    }
    Err(io::Error::other(ALWAYS_INTERRUPTED))
}
