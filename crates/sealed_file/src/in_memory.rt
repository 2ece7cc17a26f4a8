//! Sealing and opening files in memory.

ghost use Rattle.std.specs.Prelude.{[], ◌≡◌, ◌+◌, ◌-◌, ◌*◌, ◌^◌, ◌<◌, ◌≤◌, ◌↔◌, ◌++◌, length, vec_capacity, vec_len, take, drop, IsOk, IfErr, OnOk, OnErr};
ghost use Rattle.aead_ciphers.specs.Gcm.{tag_len};
ghost use Rattle.sealed_file.specs.Format.{Secret, chunk_len, sealed_chunk_len, last_piece, piece, sealed_chunk, sealed_file, secret, fresh_key};
ghost use Rattle.sealed_file.specs.Opening.{HasTag, IsSealed, body_of, chunk_of, last_chunk, opened_chunk, opened_file};
ghost use Rattle.sealed_file.specs.Refusals.{ChunkRefuses, FailsInMemory, OpenRefuses, SealRefuses};

use crate::chunk::{CHUNK_LEN, MAX_CHUNKS, SEALED_CHUNK_LEN, open_ciphertext, seal_slice};
use crate::error::FileError;
use crate::header::{ChunkCipher, HEADER_LEN, VERSION, cipher_of};
use crate::key::FileKey;
use crate::random::FileRandom;
use crate::read_at::bytes_from_offset;
use aead_ciphers::aead::{MAX_TAG_LEN, Tag};

/// The number of the last piece when `len` bytes are cut into pieces of `size` bytes.
fn last_piece_of(len: usize, size: usize) -> usize
    requires { 0 < size }
    ensures { result ≡ last_piece size len }
{
    len.saturating_sub(1) / size
}

/// The piece with this number when bytes are cut into pieces of `size` bytes.
fn piece_of(bytes: &[u8], size: usize, number: u32) -> &[u8]
    requires { size * number ≤ length bytes.now }
    ensures { result.now ≡ piece size bytes.now number }
{
    let rest = &bytes[size * number as usize..];
    if rest.len() < size {
        rest
    } else {
        &rest[..size]
    }
}

/// Appends bytes, for which `out` has room.
fn append(bytes: &[u8], out: &mut Vec<u8>)
    requires { vec_len out.old + length bytes.now ≤ vec_capacity out.old }
    ensures appended { out.new.items ≡ out.old.items ++ bytes.now }
    ensures capacity { vec_capacity out.old ≤ vec_capacity out.new }
{
    match out.extend_from_slice(bytes) {
        Ok(()) => {}
        Err(_) => unreachable!(),
    }
}

/// Seals the chunk that is `bytes` from `start` on, at most `CHUNK_LEN` bytes, in place, and returns its tag.
fn seal_chunk_from(
    cipher: &ChunkCipher,
    number: u32,
    is_last: bool,
    bytes: &mut [u8],
    start: usize,
) -> Tag
    requires start { start ≤ length bytes.old }
    requires chunk { length bytes.old ≤ start + chunk_len }
    ensures front { take start bytes.new ≡ take start bytes.old }
    ensures sealed { drop start bytes.new ++ result
        ≡ sealed_chunk cipher.now number is_last (drop start bytes.old) }
{
    seal_slice(cipher, number, is_last, &mut bytes[start..])
}

/// Seals a chunk of at most `CHUNK_LEN` bytes, and appends it to `out`, which has room for it and its tag.
fn append_sealed(cipher: &ChunkCipher, number: u32, is_last: bool, chunk: &[u8], out: &mut Vec<u8>)
    requires chunk { length chunk.now ≤ chunk_len }
    requires room { vec_len out.old + length chunk.now + tag_len ≤ vec_capacity out.old }
    ensures sealed { out.new.items
        ≡ out.old.items ++ sealed_chunk cipher.now number is_last chunk.now }
    ensures capacity { vec_capacity out.old ≤ vec_capacity out.new }
{
    let start = out.len();
    append(chunk, out);
    let tag = seal_chunk_from(cipher, number, is_last, out, start);
    append(tag.as_ref(), out);
}

/// Seals `file`, and appends the sealed file to `out`.
///
/// Fails with `TooLong` if the file has more than `MAX_CHUNKS` chunks, and otherwise with `OutOfMemory` only if `out` has no
/// room for the sealed file and cannot grow. `out` then holds the bytes that it held before.
///
/// # Examples
///
/// Seals files, and opens them again. From `crates/sealed_file_tests/src/tests/sealed_files.rt`:
///
/// ```
/// let key = FileKey::new(&KEY)?;
/// for (len, digest) in &SEALED {
///     let file = file_of(rt.alloc(), *len)?;
///     let mut sealed = Vec::new(rt.alloc());
///     let random = FileRandom::from_bytes_for_tests(RANDOM);
///     seal_bytes(&key, random, &file, &mut sealed)?;
///     same(&rt, &Md5::digest(&sealed), digest, "sealed in memory");
///     let mut opened = Vec::new(rt.alloc());
///     open_bytes(&key, &sealed, &mut opened)?;
///     same(&rt, &opened, &file, "opened in memory");
/// }
/// ```
pub fn seal_bytes(
    key: &FileKey,
    random: FileRandom,
    file: &[u8],
    out: &mut Vec<u8>,
) -> Result<(), FileError>
    ensures few { IsOk result → last_piece chunk_len (length file.now) < 2 ^ 32 - 1 }
    ensures sealed { OnOk result (out.new.items
        ≡ out.old.items ++ sealed_file (fresh_key (secret key.now []) random) file.now) }
    ensures accepted { let sealed = sealed_file (fresh_key (secret key.now []) random) file.now in
        let grown = vec_len out.old + length sealed in
        grown ≤ vec_capacity out.old
        → (IsOk result ↔ (last_piece chunk_len (length file.now) < 2 ^ 32 - 1)) }
    ensures refused { let sealed = sealed_file (fresh_key (secret key.now []) random) file.now in
        let grown = vec_len out.old + length sealed in
        IfErr result (λ error.
        FailsInMemory (vec_capacity out.old < grown) (SealRefuses file.now) error) }
    ensures kept { OnErr result (out.new.items ≡ out.old.items) }
{
    let cipher = ChunkCipher::new(VERSION, key, &[], &random);
    let last = last_piece_of(file.len(), CHUNK_LEN);
    if last >= MAX_CHUNKS as usize {
        return Err(FileError::TooLong);
    }
    let count = last as u32 + 1;
    out.reserve(HEADER_LEN + file.len() + count as usize * MAX_TAG_LEN)?;
    append(cipher.header(), out);
    for number in 0..count {
        let chunk = piece_of(file, CHUNK_LEN, number);
        append_sealed(&cipher, number, number as usize == last, chunk, out);
    }
    Ok(())
}

/// Decrypts the ciphertext that is `bytes` from `start` on, at most `CHUNK_LEN` bytes.
fn open_chunk_from(
    cipher: &ChunkCipher,
    number: u32,
    is_last: bool,
    tag: &[u8; MAX_TAG_LEN],
    bytes: &mut [u8],
    start: usize,
) -> Result<(), FileError>
    requires start { start ≤ length bytes.old }
    requires chunk { length bytes.old ≤ start + chunk_len }
    ensures front { take start bytes.new ≡ take start bytes.old }
    ensures accepted { IsOk result
        ↔ HasTag cipher.now number is_last (drop start bytes.old ++ tag.now) }
    ensures opened { OnOk result (drop start bytes.new
        ≡ opened_chunk cipher.now number is_last (drop start bytes.old ++ tag.now)) }
    ensures refused { IfErr result (λ error.
        ChunkRefuses cipher.now number is_last (drop start bytes.old ++ tag.now) error) }
{
    open_ciphertext(cipher, number, is_last, tag, &mut bytes[start..])
}

/// Opens a sealed chunk, and appends its message to `out`. On an error, bytes that are not authentic may follow those that
/// `out` held.
pub(crate) fn append_opened(
    cipher: &ChunkCipher,
    number: u32,
    is_last: bool,
    sealed: &[u8],
    out: &mut Vec<u8>,
) -> Result<(), FileError>
    requires chunk { length sealed.now ≤ sealed_chunk_len }
    requires room { vec_len out.old + (length sealed.now - tag_len) ≤ vec_capacity out.old }
    ensures front { take (vec_len out.old) out.new.items ≡ out.old.items }
    ensures accepted { IsOk result ↔ HasTag cipher.now number is_last sealed.now }
    ensures opened { OnOk result (out.new.items
        ≡ out.old.items ++ opened_chunk cipher.now number is_last sealed.now) }
    ensures refused { IfErr result (λ error.
        ChunkRefuses cipher.now number is_last sealed.now error) }
    ensures capacity { vec_capacity out.old ≤ vec_capacity out.new }
{
    let Some((ciphertext, tag)) = sealed.split_last_chunk::<MAX_TAG_LEN>() else {
        return Err(FileError::EndsEarly);
    };
    let start = out.len();
    append(ciphertext, out);
    open_chunk_from(cipher, number, is_last, tag, out, start)
}

/// The bytes after the header of a sealed file.
fn body_of(sealed: &[u8]) -> &[u8]
    ensures { result.now ≡ body_of sealed.now }
{
    bytes_from_offset(sealed, HEADER_LEN as u64)
}

/// The number of the last chunk of a sealed file.
fn last_chunk_of(sealed: &[u8]) -> usize
    ensures { result ≡ last_chunk sealed.now }
{
    last_piece_of(body_of(sealed).len(), SEALED_CHUNK_LEN)
}

/// The chunk with this number of a sealed file.
fn chunk_of(sealed: &[u8], number: u32) -> &[u8]
    requires { number ≤ last_chunk sealed.now }
    ensures { result.now ≡ chunk_of sealed.now number }
{
    piece_of(body_of(sealed), SEALED_CHUNK_LEN, number)
}

/// The length of the file that a sealed file opens to.
fn opened_file_len(sealed: &[u8]) -> usize
    ensures { (s : Secret) → result ≡ length (opened_file s sealed.now) }
{
    let last = last_chunk_of(sealed);
    let body = body_of(sealed).len();
    last * CHUNK_LEN + (body - last * SEALED_CHUNK_LEN).saturating_sub(MAX_TAG_LEN)
}

/// Like `open_bytes`, but on an error bytes may follow those that `out` held.
fn append_opened_file(key: &FileKey, sealed: &[u8], out: &mut Vec<u8>) -> Result<(), FileError>
    ensures front { take (vec_len out.old) out.new.items ≡ out.old.items }
    ensures accepted { IsOk result → IsSealed (secret key.now []) sealed.now }
    ensures opened { OnOk result (out.new.items
        ≡ out.old.items ++ opened_file (secret key.now []) sealed.now) }
    ensures refused { let grown = vec_len out.old + length (opened_file (secret key.now []) sealed.now) in
        IfErr result (λ error.
        FailsInMemory (vec_capacity out.old < grown) (OpenRefuses (secret key.now []) sealed.now) error) }
{
    let cipher = cipher_of(VERSION, key, &[], sealed)?;
    let last = last_chunk_of(sealed);
    out.reserve(opened_file_len(sealed))?;
    for number in 0..MAX_CHUNKS {
        let chunk = chunk_of(sealed, number);
        let is_last = number as usize == last;
        append_opened(&cipher, number, is_last, chunk, out)?;
        if is_last {
            return Ok(());
        }
    }
    Err(FileError::TooLong)
}

/// Opens a sealed file, and appends the file to `out`.
///
/// Fails with the errors of `open`, except `Io`, and with `OutOfMemory` only if `out` has no room for the file and cannot grow.
/// `out` then holds the bytes that it held before.
pub fn open_bytes(key: &FileKey, sealed: &[u8], out: &mut Vec<u8>) -> Result<(), FileError>
    ensures authentic { IsOk result → IsSealed (secret key.now []) sealed.now }
    ensures opened { OnOk result (out.new.items
        ≡ out.old.items ++ opened_file (secret key.now []) sealed.now) }
    ensures accepted { let grown = vec_len out.old + length (opened_file (secret key.now []) sealed.now) in
        grown ≤ vec_capacity out.old → (IsOk result ↔ IsSealed (secret key.now []) sealed.now) }
    ensures refused { let grown = vec_len out.old + length (opened_file (secret key.now []) sealed.now) in
        IfErr result (λ error.
        FailsInMemory (vec_capacity out.old < grown) (OpenRefuses (secret key.now []) sealed.now) error) }
    ensures kept { OnErr result (out.new.items ≡ out.old.items) }
{
    let len = out.len();
    let opened = append_opened_file(key, sealed, out);
    if opened.is_err() {
        out.truncate(len);
    }
    opened
}
