//! Sealed files in memory, and a part of one.

ghost use Rattle.std.specs.Prelude.{◌≡◌, ◌↔◌, ◌+◌, ◌-◌, ◌^◌, ◌<◌, ◌≤◌, ◌%◌, [], ◌++◌, length, min, take, drop, vec_len, vec_capacity, IsOk, IfOk, IfSome, OnOk, OnErr};
ghost use Rattle.sealed_file.specs.Format.{chunk_len, fresh_key, last_piece, sealed_file, secret};
ghost use Rattle.sealed_file.specs.Opening.{IsSealed, opened_file};
ghost use Rattle.sealed_file.specs.Reader.{IsReadable, file_from};

use sealed_file::{FileError, FileKey, FileRandom, ReadAt, SealedReader, open_bytes, seal_bytes};
use std::alloc::Global;

/// Seals a file, and appends the sealed file to `out`. If `out` has room, a file of fewer than 2^32 chunks is sealed.
pub fn seal(
    key: &FileKey,
    random: FileRandom,
    file: &[u8],
    out: &mut Vec<u8>,
) -> Result<(), FileError>
    ensures accepted { let sealed = sealed_file (fresh_key (secret key.now []) random) file.now in
        vec_len out.old + length sealed ≤ vec_capacity out.old
        → (IsOk result ↔ (last_piece chunk_len (length file.now) < 2 ^ 32 - 1)) }
    ensures sealed { OnOk result (out.new.items
        ≡ out.old.items ++ sealed_file (fresh_key (secret key.now []) random) file.now) }
    ensures kept { OnErr result (out.new.items ≡ out.old.items) }
{
    seal_bytes(key, random, file, out)
}

/// Opens a sealed file, and appends the file to `out`. If `out` has room, every sealed file is opened.
pub fn open(key: &FileKey, sealed: &[u8], out: &mut Vec<u8>) -> Result<(), FileError>
    ensures accepted { let file = opened_file (secret key.now []) sealed.now in
        vec_len out.old + length file ≤ vec_capacity out.old
        → (IsOk result ↔ IsSealed (secret key.now []) sealed.now) }
    ensures authentic { IsOk result → IsSealed (secret key.now []) sealed.now }
    ensures opened { OnOk result (out.new.items ≡ out.old.items ++ opened_file (secret key.now []) sealed.now) }
    ensures kept { OnErr result (out.new.items ≡ out.old.items) }
{
    open_bytes(key, sealed, out)
}

/// Reads the file whose sealed form begins at byte `start` of `input`, from byte `at` on into the front of `buf`, and returns
/// how many bytes were read.
pub fn read_part<R: ReadAt + Drop>(
    alloc: Global,
    key: &FileKey,
    input: R,
    start: u64,
    at: u64,
    buf: &mut [u8],
) -> Result<usize, FileError>
    ensures readable { IfSome (file_from start (R.bytes input)) (λ file. IsOk result → IsReadable (secret key.now []) file) }
    ensures read { IfSome (file_from start (R.bytes input)) (λ file. IfOk result (λ n.
        take n buf.new ≡ take n (drop at (opened_file (secret key.now []) file)))) }
    ensures count { IfSome (file_from start (R.bytes input)) (λ file. IfOk result (λ n. n ≡ min (length buf.old)
        (min (length (opened_file (secret key.now []) file) - at) (chunk_len - at % chunk_len)))) }
    ensures rest { IfOk result (λ n. drop n buf.new ≡ drop n buf.old) }
    ensures kept { OnErr result (buf.new ≡ buf.old) }
{
    let mut reader = SealedReader::new(alloc, key, &[], input, start)?;
    reader.read_at(at, buf)
}
