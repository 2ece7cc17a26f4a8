//! Opening a sealed file from one stream to another.

ghost use Rattle.std.specs.Prelude.{[], ◌≤◌, length, IfErr, IfSome, OnOk, OnErr};
ghost use Rattle.std.specs.Io.KnownBytes.{Appends};
ghost use Rattle.sealed_file.specs.Format.{secret, secret_of};
ghost use Rattle.sealed_file.specs.Opening.{IsSealed, opened_file};
ghost use Rattle.sealed_file.specs.Refusals.{OpenRefuses};
ghost use Rattle.sealed_file.specs.Streams.{AppendsAuthentic, AppendsRight, BeginsAuthentic};

use crate::chunk::{MAX_CHUNKS, SEALED_CHUNK_LEN, open_chunk};
use crate::error::FileError;
use crate::header::{VERSION, cipher_of};
use crate::key::FileKey;
use crate::stream::{buffers, read_header, read_piece, write_bytes};
use std::alloc::Global;
use std::io::{Read, Write};
use std::mem;

/// Opens the sealed file in `input`, and writes the file to `output`.
///
/// It keeps two chunks in memory, and writes the message of a chunk only after its tag is verified. What was written before an
/// error is authentic, but may be only the beginning of the file.
///
/// Fails with `Io` if reading, writing or allocating memory fails. Every other error says what is wrong with the file:
/// `AnotherMagic` and `AnotherVersion`; `WrongKey`, if the header commits to another key or was changed, before any chunk is
/// read; `EndsEarly`, if the file ends within the header or a tag, or after a chunk that is not the last;
/// `TrailingBytes`, if there are bytes after a last chunk of `CHUNK_LEN` bytes; `Refused`, if any other chunk has a wrong tag;
/// and `TooLong`, if there are more than `MAX_CHUNKS` chunks.
///
/// # Examples
///
/// Opens the sealed file in the slice `sealed`. From `crates/sealed_file_tests/src/tests/sealed_files.rt`:
///
/// ```
/// let mut opened = Vec::new(alloc);
/// let mut input = sealed;
/// let found = match open(alloc, &FileKey::new(&KEY)?, &mut input, &mut opened) {
///     Ok(()) => String::from_str(alloc, "opened")?,
///     Err(error) => format!(in alloc; "{error}")?,
/// };
/// ```
pub fn open<R: Read, W: Write>(
    alloc: Global,
    key: &FileKey,
    input: &mut R,
    output: &mut W,
) -> Result<(), FileError>
    ensures accepted { OnOk result (IfSome (R.remaining input.old) (λ file. IsSealed (secret key.now []) file)) }
    ensures opened { OnOk result (IfSome (R.remaining input.old) (λ file.
        Appends (W.contents output.old) (W.contents output.new) (opened_file (secret key.now []) file))) }
    ensures refused { IfErr result (λ error. IfSome (R.remaining input.old) (λ file.
        OpenRefuses (secret key.now []) file error)) }
    ensures nothing_past { OnErr result (IfSome (R.remaining input.old) (λ file.
        AppendsRight (secret key.now []) file (W.contents output.old) (W.contents output.new))) }
    ensures authentic { OnOk result
        (AppendsAuthentic (secret key.now []) (W.contents output.old) (W.contents output.new)) }
    ensures authentic_part { OnErr result
        (BeginsAuthentic (secret key.now []) (W.contents output.old) (W.contents output.new)) }
{
    open_with_aad(alloc, key, &[], input, output)
}

/// Like `open`, for a file that is bound to `aad`, at most `MAX_AAD_LEN` bytes. With other bytes than it was sealed with, the
/// first chunk is refused.
pub fn open_with_aad<R: Read, W: Write>(
    alloc: Global,
    key: &FileKey,
    aad: &[u8],
    input: &mut R,
    output: &mut W,
) -> Result<(), FileError>
    requires { length aad.now ≤ 4096 }
    ensures accepted { OnOk result (IfSome (R.remaining input.old) (λ file. IsSealed (secret key.now aad.now) file)) }
    ensures opened { OnOk result (IfSome (R.remaining input.old) (λ file.
        Appends (W.contents output.old) (W.contents output.new) (opened_file (secret key.now aad.now) file))) }
    ensures refused { IfErr result (λ error. IfSome (R.remaining input.old) (λ file.
        OpenRefuses (secret key.now aad.now) file error)) }
    ensures nothing_past { OnErr result (IfSome (R.remaining input.old) (λ file.
        AppendsRight (secret key.now aad.now) file (W.contents output.old) (W.contents output.new))) }
    ensures authentic { OnOk result
        (AppendsAuthentic (secret key.now aad.now) (W.contents output.old) (W.contents output.new)) }
    ensures authentic_part { OnErr result
        (BeginsAuthentic (secret key.now aad.now) (W.contents output.old) (W.contents output.new)) }
{
    open_version(alloc, VERSION, key, aad, input, output)
}

/// Opens a file of this version, as `open_with_aad` does. `aad` is the AAD after the first `HEADER_LEN` bytes of the header.
pub(crate) fn open_version<R: Read, W: Write>(
    alloc: Global,
    version: u8,
    key: &FileKey,
    aad: &[u8],
    input: &mut R,
    output: &mut W,
) -> Result<(), FileError>
    requires { length aad.now ≤ 4100 }
    ensures accepted { OnOk result (IfSome (R.remaining input.old) (λ file. IsSealed (secret_of version key.now aad.now) file)) }
    ensures opened { OnOk result (IfSome (R.remaining input.old) (λ file.
        Appends (W.contents output.old) (W.contents output.new) (opened_file (secret_of version key.now aad.now) file))) }
    ensures refused { IfErr result (λ error. IfSome (R.remaining input.old) (λ file.
        OpenRefuses (secret_of version key.now aad.now) file error)) }
    ensures nothing_past { OnErr result (IfSome (R.remaining input.old) (λ file.
        AppendsRight (secret_of version key.now aad.now) file (W.contents output.old) (W.contents output.new))) }
    ensures authentic { OnOk result
        (AppendsAuthentic (secret_of version key.now aad.now) (W.contents output.old) (W.contents output.new)) }
    ensures authentic_part { OnErr result
        (BeginsAuthentic (secret_of version key.now aad.now) (W.contents output.old) (W.contents output.new)) }
{
    let (mut chunk, mut next) = buffers(alloc)?;
    read_header(input, &mut chunk)?;
    let cipher = cipher_of(version, key, aad, &chunk)?;
    read_piece(input, SEALED_CHUNK_LEN, &mut chunk)?;
    for number in 0..MAX_CHUNKS {
        read_piece(input, SEALED_CHUNK_LEN, &mut next)?;
        let is_last = next.is_empty();
        open_chunk(&cipher, number, is_last, &mut chunk)?;
        write_bytes(output, &chunk)?;
        if is_last {
            return Ok(());
        }
        mem::swap(&mut chunk, &mut next);
    }
    Err(FileError::TooLong)
}
