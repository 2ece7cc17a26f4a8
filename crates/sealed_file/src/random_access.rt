//! Opening one chunk of a sealed file without the others.

ghost use Rattle.std.specs.Prelude.{ℕ, List, ◌≡◌, ◌+◌, ◌-◌, ◌<◌, ◌≤◌, ◌↔◌, ◌++◌, length, vec_capacity, vec_len, take, IsOk, IsSome, IfErr, OnOk, OnErr};
ghost use Rattle.aead_ciphers.specs.Gcm.{tag_len};
ghost use Rattle.sealed_file.specs.Format.{Secret, sealed_chunk_len, secret};
ghost use Rattle.sealed_file.specs.Opening.{HasHeader, HasTag, IsSealed, IsSealedLen, header_of, key_of, opened_chunk, opened_file};
ghost use Rattle.sealed_file.specs.Refusals.{ChunkAtRefuses, FailsInMemory};

use crate::chunk::CHUNK_LEN;
use crate::error::FileError;
use crate::header::{VERSION, cipher_of};
use crate::in_memory::append_opened;
use crate::key::FileKey;
use crate::reader::last_chunk_of_len;
use aead_ciphers::aead::MAX_TAG_LEN;

/// Like `open_chunk_at`, but on an error bytes may follow those that `out` held.
fn append_chunk_at(
    key: &FileKey,
    aad: &[u8],
    header: &[u8],
    number: u32,
    is_last: bool,
    sealed: &[u8],
    out: &mut Vec<u8>,
) -> Result<(), FileError>
    requires aad { length aad.now ≤ 4096 }
    requires chunk { length sealed.now ≤ sealed_chunk_len }
    ensures front { take (vec_len out.old) out.new.items ≡ out.old.items }
    ensures header { IsOk result → HasHeader (secret key.now aad.now) (header_of header.now) }
    ensures tag { IsOk result → HasTag (key_of (secret key.now aad.now) header.now) number is_last sealed.now }
    ensures opened { OnOk result (out.new.items
        ≡ out.old.items ++ opened_chunk (key_of (secret key.now aad.now) header.now) number is_last sealed.now) }
    ensures refused { let grown = vec_len out.old + (length sealed.now - tag_len) in
        IfErr result (λ error. FailsInMemory (vec_capacity out.old < grown)
        (ChunkAtRefuses (secret key.now aad.now) header.now number is_last sealed.now) error) }
{
    let cipher = cipher_of(VERSION, key, aad, header)?;
    out.reserve(sealed.len().saturating_sub(MAX_TAG_LEN))?;
    append_opened(&cipher, number, is_last, sealed, out)
}

/// Opens one chunk of a sealed file, and appends its message to `out`.
///
/// `aad` is what the file is bound to, at most `MAX_AAD_LEN` bytes. `header` is at least the file's first `HEADER_LEN` bytes.
/// `number` counts the chunks from 0, and `is_last` says that the chunk ends the file. Chunk `n` begins at byte
/// `HEADER_LEN + n * SEALED_CHUNK_LEN`, and has `SEALED_CHUNK_LEN` bytes unless it is the last.
///
/// The other chunks are not checked: the file may lack them, or have others in their place. Only opening the last chunk with
/// `is_last` shows that the file ends where it ended when it was sealed.
///
/// Fails with the errors of `open` for the header and for this chunk, except `Io`, and with `OutOfMemory` only if `out` has no
/// room for the message and cannot grow. `out` then holds the bytes that it held before.
///
/// # Examples
///
/// Opens the chunks of a sealed file one by one. From `crates/sealed_file_tests/src/tests/sealed_files.rt`:
///
/// ```
/// let body = sealed.get(HEADER_LEN..).ok_or("a body")?;
/// let mut opened = Vec::new(rt.alloc());
/// let last = body.len().saturating_sub(1) / SEALED_CHUNK_LEN;
/// let mut number = 0u32;
/// for chunk in body.chunks(SEALED_CHUNK_LEN) {
///     let is_last = number as usize == last;
///     assert!(rt; chunk.len() <= SEALED_CHUNK_LEN);
///     open_chunk_at(&key, &[], &sealed, number, is_last, chunk, &mut opened)?;
///     number = number.wrapping_add(1);
/// }
/// ```
pub fn open_chunk_at(
    key: &FileKey,
    aad: &[u8],
    header: &[u8],
    number: u32,
    is_last: bool,
    sealed: &[u8],
    out: &mut Vec<u8>,
) -> Result<(), FileError>
    requires aad { length aad.now ≤ 4096 }
    requires chunk { length sealed.now ≤ sealed_chunk_len }
    ensures header { IsOk result → HasHeader (secret key.now aad.now) (header_of header.now) }
    ensures tag { IsOk result → HasTag (key_of (secret key.now aad.now) header.now) number is_last sealed.now }
    ensures opened { OnOk result (out.new.items
        ≡ out.old.items ++ opened_chunk (key_of (secret key.now aad.now) header.now) number is_last sealed.now) }
    ensures accepted { let grown = vec_len out.old + (length sealed.now - tag_len) in
        grown ≤ vec_capacity out.old → (IsOk result ↔ (HasHeader (secret key.now aad.now) (header_of header.now)
        × HasTag (key_of (secret key.now aad.now) header.now) number is_last sealed.now)) }
    ensures refused { let grown = vec_len out.old + (length sealed.now - tag_len) in
        IfErr result (λ error. FailsInMemory (vec_capacity out.old < grown)
        (ChunkAtRefuses (secret key.now aad.now) header.now number is_last sealed.now) error) }
    ensures kept { OnErr result (out.new.items ≡ out.old.items) }
{
    let len = out.len();
    let opened = append_chunk_at(key, aad, header, number, is_last, sealed, out);
    if opened.is_err() {
        out.truncate(len);
    }
    opened
}

/// Returns the length of a file from the length of its sealed file.
///
/// Returns `None` if no sealed file has this length: it would end within the header or a tag, or have more than `MAX_CHUNKS`
/// chunks.
pub fn plaintext_len(sealed_len: u64) -> Option<u64>
    ensures known { IsSome result ↔ IsSealedLen sealed_len }
    ensures opened { (s : Secret) (file : List ℕ) → length file ≡ sealed_len
        → IsSealed s file → result ≡ Some (length (opened_file s file)) }
{
    match last_chunk_of_len(sealed_len) {
        Ok((last, last_len)) => Some(u64::from(last) * CHUNK_LEN as u64 + last_len as u64),
        Err(_) => None,
    }
}
