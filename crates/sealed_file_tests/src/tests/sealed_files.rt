//! Sealed files as `tools/open-sealed-file` makes them, files that do not open, and streams that fail.

ghost use Rattle.std.specs.Prelude.{◌≤◌, length};

use crate::tests::checks::{displays, equal, holds, same};
use md5::{Digest, Md5};
use sealed_file::{
    CHUNK_LEN, FileError, FileKey, FileRandom, HEADER_LEN, SEALED_CHUNK_LEN, open, open_bytes,
    open_chunk_at, open_with_aad, plaintext_len, seal, seal_bytes, seal_with_aad,
};
use std::alloc::Global;
use std::io::{self, ErrorKind};
use std::process::Abort;
use std::random::RandomSource;
use std::test::Fail;
use test_support::failing_streams::FailingStream;

/// The key: the bytes 0 to 31.
pub(crate) const KEY: [u8; 32] = [
    0, 1, 2, 3, 4, 5, 6, 7, 8, 9, 10, 11, 12, 13, 14, 15, 16, 17, 18, 19, 20, 21, 22, 23, 24, 25,
    26, 27, 28, 29, 30, 31,
];

/// The random bytes: 1 to 19.
pub(crate) const RANDOM: [u8; 19] = [
    1, 2, 3, 4, 5, 6, 7, 8, 9, 10, 11, 12, 13, 14, 15, 16, 17, 18, 19,
];

/// Lengths of files, and the MD5 of each when sealed, made by python's `cryptography`.
const SEALED: [(usize, [u8; 16]); 6] = [
    (
        0,
        *b"\xf4\x23\x53\x05\x1a\xc6\x48\x2e\x15\xe3\x10\x07\x21\x97\xfc\xb7",
    ),
    (
        1,
        *b"\xca\x2d\x6c\xb8\x1b\xca\xa3\x2a\x09\xfb\x31\xeb\xbf\x83\xdd\xd1",
    ),
    (
        65535,
        *b"\x16\xee\x53\x70\xe0\x59\xad\x89\x47\xca\x2c\xf7\xb0\x7b\x7f\xed",
    ),
    (
        65536,
        *b"\x7e\x05\x02\x02\xe8\x05\x58\x2c\xfc\xa8\x92\xb9\x36\x44\xac\x3b",
    ),
    (
        65537,
        *b"\xfb\x08\xff\x20\xb8\x27\x99\xac\x71\x09\x18\xb1\xdd\x35\x22\xb2",
    ),
    (
        131072,
        *b"\x8e\xf9\x6b\xd3\x9e\x2c\xd5\xe3\x65\x4f\xd7\x19\xac\x87\x7e\xc0",
    ),
];

/// The message for a wrong first chunk.
pub(crate) const FIRST_REFUSED: &str = "chunk 0 was changed or cut";

const SECOND_REFUSED: &str = "chunk 1 was changed or cut";

pub(crate) const ENDS_EARLY: &str = "the sealed file ends early";

const TRAILING_BYTES: &str = "there are bytes after the last chunk";

const VERSION_ONE: &str = "a sealed file of version 1, which is neither 2 nor 3";

const VERSION_FOUR: &str = "a sealed file of version 4, which is neither 2 nor 3";

pub(crate) const ANOTHER_KEY: &str = "the key or passphrase is wrong, or the header was changed";

/// The test file of this length: byte i is i modulo 251.
pub(crate) fn file_of(alloc: Global, len: usize) -> Result<Vec<u8>, Fail> {
    let mut file = Vec::with_capacity(alloc, len)?;
    for i in 0..len {
        file.push((i % 251) as u8)?;
    }
    Ok(file)
}

/// The test file of this length, sealed.
fn sealed_of(alloc: Global, len: usize) -> Result<Vec<u8>, Fail> {
    let file = file_of(alloc, len)?;
    let mut sealed = Vec::new(alloc);
    seal(
        alloc,
        &FileKey::new(&KEY)?,
        FileRandom::from_bytes_for_tests(RANDOM),
        &mut file.as_slice(),
        &mut sealed,
    )?;
    Ok(sealed)
}

/// Opening these bytes ends with this message, and gives the first `len` bytes of the test file.
fn opens(
    rt: &(impl Abort + AllocGlobal),
    sealed: &[u8],
    len: usize,
    text: &str,
) -> Result<(), Fail> {
    let alloc = rt.alloc();
    let mut opened = Vec::new(alloc);
    let mut input = sealed;
    let found = match open(alloc, &FileKey::new(&KEY)?, &mut input, &mut opened) {
        Ok(()) => String::from_str(alloc, "opened")?,
        Err(error) => format!(in alloc; "{error}")?,
    };
    assert_eq!(rt; found.as_str(), text);
    same(rt, &opened, &file_of(alloc, len)?, text);
    Ok(())
}

// Sealing and opening succeed over streams that do not fail. No clause of the calls over streams says so.
#[test]
fn sealed_by_another_program(rt: HostRuntime) -> Result<(), Fail> {
    for (len, digest) in &SEALED {
        let sealed = sealed_of(rt.alloc(), *len)?;
        same(&rt, &Md5::digest(&sealed), digest, "sealed");
        opens(&rt, &sealed, *len, "opened")?;
    }
    Ok(())
}

// No clause says that a `Vec` can grow.
#[test]
fn in_memory(rt: HostRuntime) -> Result<(), Fail> {
    let key = FileKey::new(&KEY)?;
    for (len, digest) in &SEALED {
        let file = file_of(rt.alloc(), *len)?;
        let mut sealed = Vec::new(rt.alloc());
        let random = FileRandom::from_bytes_for_tests(RANDOM);
        seal_bytes(&key, random, &file, &mut sealed)?;
        same(&rt, &Md5::digest(&sealed), digest, "sealed in memory");
        let mut opened = Vec::new(rt.alloc());
        open_bytes(&key, &sealed, &mut opened)?;
        same(&rt, &opened, &file, "opened in memory");
    }
    Ok(())
}

/// A source that gives the bytes of `RANDOM`, or fails.
struct Source {
    fails: bool,
}

impl RandomSource for Source {
    fn fill_bytes(&self, buf: &mut [u8]) -> io::Result<()> {
        if self.fails {
            return Err(io::Error::from(ErrorKind::BrokenPipe));
        }
        for (byte, random) in buf.iter_mut().zip(&RANDOM) {
            *byte = *random;
        }
        Ok(())
    }
}

// No clause says which bytes a source gives.
#[test]
fn drawn_random_bytes(rt: HostRuntime) -> Result<(), Fail> {
    let random = FileRandom::draw(&Source { fails: false })?;
    let mut sealed = Vec::new(rt.alloc());
    seal_bytes(&FileKey::new(&KEY)?, random, b"", &mut sealed)?;
    holds(&rt, sealed.starts_with(HEADER), "the drawn bytes");
    holds(
        &rt,
        FileRandom::draw(&Source { fails: true }).is_err(),
        "a source that fails",
    );
    Ok(())
}

#[test]
fn cut_files(rt: HostRuntime) -> Result<(), Fail> {
    let sealed = sealed_of(rt.alloc(), CHUNK_LEN + 5)?;
    let behind_first = HEADER_LEN + SEALED_CHUNK_LEN;
    for (len, opened, text) in [
        (0, 0, ENDS_EARLY),
        (8, 0, ENDS_EARLY),
        (9, 0, ENDS_EARLY),
        (59, 0, ENDS_EARLY),
        (60, 0, ENDS_EARLY),
        (75, 0, ENDS_EARLY),
        (76, 0, FIRST_REFUSED),
        (behind_first - 1, 0, FIRST_REFUSED),
        (behind_first, 0, ENDS_EARLY),
        (behind_first + 15, CHUNK_LEN, ENDS_EARLY),
        (behind_first + 16, CHUNK_LEN, SECOND_REFUSED),
        (behind_first + 20, CHUNK_LEN, SECOND_REFUSED),
        (behind_first + 21, CHUNK_LEN + 5, "opened"),
    ] {
        let cut = sealed.get(..len).ok_or(FileError::EndsEarly)?;
        opens(&rt, cut, opened, text)?;
    }
    Ok(())
}

/// The header of the test files, whose last 32 bytes python's `cryptography` made.
const HEADER: &[u8] =
    b"SEALFILE\x02\x01\x02\x03\x04\x05\x06\x07\x08\x09\x0a\x0b\x0c\x0d\x0e\x0f\x10\x11\x12\x13\
    \x54\x5c\xc4\xe1\x68\xe0\xad\x52\x52\x3d\xae\x55\x27\xf1\x8b\x14\
    \x87\xf5\xca\xe3\xe7\x72\x0c\x34\x9f\x13\xc0\x96\x78\xca\x54\x52";

/// A changed sealed file of two chunks: which byte of the header differs, which chunks follow, and what comes after them.
struct Changed {
    header: Option<(usize, u8)>,
    chunks: &'static [usize],
    after: &'static [u8],
    opened: usize,
    text: &'static str,
}

const CHANGED: [Changed; 11] = [
    Changed {
        header: None,
        chunks: &[1, 0],
        after: b"",
        opened: 0,
        text: FIRST_REFUSED,
    },
    Changed {
        header: None,
        chunks: &[0, 0, 1],
        after: b"",
        opened: CHUNK_LEN,
        text: SECOND_REFUSED,
    },
    Changed {
        header: None,
        chunks: &[1],
        after: b"",
        opened: 0,
        text: FIRST_REFUSED,
    },
    Changed {
        header: None,
        chunks: &[0, 1, 1],
        after: b"",
        opened: CHUNK_LEN,
        text: TRAILING_BYTES,
    },
    Changed {
        header: None,
        chunks: &[0, 1],
        after: b"x",
        opened: CHUNK_LEN,
        text: TRAILING_BYTES,
    },
    Changed {
        header: Some((7, b'F')),
        chunks: &[0, 1],
        after: b"",
        opened: 0,
        text: "not a sealed file",
    },
    Changed {
        header: Some((8, 4)),
        chunks: &[0, 1],
        after: b"",
        opened: 0,
        text: VERSION_FOUR,
    },
    Changed {
        header: Some((8, 1)),
        chunks: &[0, 1],
        after: b"",
        opened: 0,
        text: VERSION_ONE,
    },
    Changed {
        header: Some((9, 0)),
        chunks: &[0, 1],
        after: b"",
        opened: 0,
        text: ANOTHER_KEY,
    },
    Changed {
        header: Some((27, 0)),
        chunks: &[0, 1],
        after: b"",
        opened: 0,
        text: FIRST_REFUSED,
    },
    Changed {
        header: Some((59, 0)),
        chunks: &[0, 1],
        after: b"",
        opened: 0,
        text: ANOTHER_KEY,
    },
];

/// A changed file, given what follows the header of a sealed one.
fn changed_file(alloc: Global, body: &[u8], row: &Changed) -> Result<Vec<u8>, Fail> {
    let mut file = HEADER.to_vec(alloc)?;
    if let Some((at, byte)) = row.header {
        let place = file.get_mut(at).ok_or("a place")?;
        *place = byte;
    }
    for number in row.chunks {
        let chunk = body.chunks(SEALED_CHUNK_LEN).nth(*number).ok_or("a chunk")?;
        file.extend_from_slice(chunk)?;
    }
    file.extend_from_slice(row.after)?;
    Ok(file)
}

#[test]
fn changed_files(rt: HostRuntime) -> Result<(), Fail> {
    let sealed = sealed_of(rt.alloc(), 2 * CHUNK_LEN)?;
    let body = sealed.get(HEADER_LEN..).ok_or("a body")?;
    for row in &CHANGED {
        let file = changed_file(rt.alloc(), body, row)?;
        opens(&rt, &file, row.opened, row.text)?;
    }
    Ok(())
}

const TEXTS: [(FileError, &str); 3] = [
    (FileError::KeyLength, "the key is not 32 bytes long"),
    (
        FileError::TooLong,
        "the file is too long: it has 2^32 chunks or more",
    ),
    (FileError::OutOfMemory, "out of memory"),
];

#[test]
fn texts(rt: HostRuntime) -> Result<(), Fail> {
    for (error, text) in &TEXTS {
        displays(&rt, error, text)?;
    }
    Ok(())
}

/// What a call does.
#[derive(Clone, Copy)]
enum Action {
    Seal,
    Open,
}

/// The most bytes that a failing stream moves in one call.
const MOST: usize = 50000;

/// The outcome of a call over failing streams.
#[derive(Drop)]
struct Ended {
    outcome: Result<(), FileError>,
    written: Vec<u8>,
    reads: u32,
    writes: u32,
}

/// Seals or opens bytes over streams of which the read or the write with this number fails.
fn ended_over(
    alloc: Global,
    action: Action,
    bytes: &[u8],
    failing_read: Option<u32>,
    failing_write: Option<u32>,
) -> Result<Ended, Fail> {
    let key = FileKey::new(&KEY)?;
    let mut input = FailingStream::new(bytes, MOST, failing_read);
    let mut output = FailingStream::new(Vec::new(alloc), MOST, failing_write);
    let outcome = match action {
        Action::Seal => {
            let random = FileRandom::from_bytes_for_tests(RANDOM);
            seal(alloc, &key, random, &mut input, &mut output)
        }
        Action::Open => open(alloc, &key, &mut input, &mut output),
    };
    Ok(Ended {
        outcome,
        written: output.inner,
        reads: input.made,
        writes: output.made,
    })
}

/// Asserts that a beginning is written and the error is that of the failing call.
fn fails_at(
    rt: &(impl Abort + AllocGlobal),
    (action, bytes, all): (Action, &[u8], &[u8]),
    failing_read: Option<u32>,
    failing_write: Option<u32>,
) -> Result<(), Fail> {
    let ended = ended_over(rt.alloc(), action, bytes, failing_read, failing_write)?;
    holds(rt, all.starts_with(&ended.written), "a beginning");
    let is_of_the_call =
        matches!(&ended.outcome, Err(FileError::Io(error)) if error.kind() == ErrorKind::BrokenPipe);
    holds(rt, is_of_the_call, "the error");
    Ok(())
}

/// Asserts that everything is written if no call fails, and then that each call fails in turn.
fn fails_in_turn(
    rt: &(impl Abort + AllocGlobal),
    action: Action,
    bytes: &[u8],
    all: &[u8],
) -> Result<(), Fail> {
    let whole = ended_over(rt.alloc(), action, bytes, None, None)?;
    holds(rt, whole.outcome.is_ok(), "the whole");
    same(rt, &whole.written, all, "all");
    for call in 0..whole.reads {
        fails_at(rt, (action, bytes, all), Some(call), None)?;
    }
    for call in 0..whole.writes {
        fails_at(rt, (action, bytes, all), None, Some(call))?;
    }
    Ok(())
}

#[test]
fn each_failed_call_ends_it(rt: HostRuntime) -> Result<(), Fail> {
    let file = file_of(rt.alloc(), CHUNK_LEN + 5)?;
    let sealed = sealed_of(rt.alloc(), CHUNK_LEN + 5)?;
    fails_in_turn(&rt, Action::Seal, &file, &sealed)?;
    fails_in_turn(&rt, Action::Open, &sealed, &file)
}

/// The derived key of the second test vector of XAES-256-GCM (a specification of C2SP), whose key has the bytes 3.
const DERIVED_KEY: [u8; 32] = *b"\xe9\xc6\x21\xd4\xcd\xd9\xb1\x1b\x00\xa6\x42\x7a\xd7\xe5\x59\xae\
    \xed\xd6\x6b\x38\x57\x64\x66\x77\x74\x8f\x8c\xa7\x96\xcb\x3f\xd8";

/// The commitment to that key for the same context, by python's `cryptography`.
const COMMITMENT: [u8; 32] = *b"\x6e\xee\xd5\x65\xf0\xc9\xd2\x33\x2b\x86\xa5\x14\x1d\xa7\xa2\x45\
    \x88\x28\x26\x97\x31\xbf\x51\xd3\xc5\x39\xd6\xfe\x28\xf7\xfd\xda";

#[test]
fn derived_from_a_key(rt: HostRuntime) -> Result<(), Fail> {
    let key = FileKey::new(&[3; 32])?;
    same(&rt, &key.derived_key(b"ABCDEFGHIJKL"), &DERIVED_KEY, "key");
    same(
        &rt,
        &key.commitment(b"ABCDEFGHIJKL"),
        &COMMITMENT,
        "commitment",
    );
    Ok(())
}

/// A header without a commitment, of version 1, and one chunk whose tag is right under `KEY` and under `OTHER_KEY`: its
/// ciphertext block solves the equation that both tags are one.
const TWO_KEYS: &[u8] = b"SEALFILE\x01\x01\x02\x03\x04\x05\x06\x07\
    \x80\x46\x48\xf4\xf5\x80\x00\xb4\xa8\xa2\x8d\xb0\x36\xef\xb4\x1e\
    \xf5\x66\x69\xb3\x9b\xaa\x40\xb9\xa2\x2d\x34\x6f\xab\xc7\x56\x7d";

/// The same after `HEADER`, which has the commitment of `KEY`.
const TWO_KEYS_AFTER_HEADER: &[u8] =
    b"\x69\xc7\xb4\xdc\x31\xf8\xb1\x7d\xe5\x16\x51\xc8\x5e\x7f\x5a\x92\
    \x49\x34\x23\xd2\xce\x0f\x71\x3e\xae\xef\xc4\x9f\x5e\xc8\x10\x38";

/// What `TWO_KEYS_AFTER_HEADER` opens to under `KEY`.
const UNDER_THE_FIRST: &[u8] = b"\x87\xd9\xd8\xf1\x12\x46\x32\xcf\x48\xf0\x5a\x1a\xcf\x04\x78\x9a";

const OTHER_KEY: [u8; 32] = [7; 32];

/// Asserts that opening a file in memory ends with this message.
fn refused(
    rt: &(impl Abort + AllocGlobal),
    key: &[u8],
    sealed: &[u8],
    text: &str,
) -> Result<(), Fail> {
    let mut opened = Vec::new(rt.alloc());
    match open_bytes(&FileKey::new(key)?, sealed, &mut opened) {
        Ok(()) => holds(rt, false, text),
        Err(error) => displays(rt, &error, text)?,
    }
    Ok(())
}

#[test]
fn a_file_that_opens_under_two_keys(rt: HostRuntime) -> Result<(), Fail> {
    refused(&rt, &KEY, TWO_KEYS, VERSION_ONE)?;
    refused(&rt, &OTHER_KEY, TWO_KEYS, VERSION_ONE)?;
    let mut sealed = HEADER.to_vec(rt.alloc())?;
    sealed.extend_from_slice(TWO_KEYS_AFTER_HEADER)?;
    refused(&rt, &OTHER_KEY, &sealed, ANOTHER_KEY)?;
    let mut opened = Vec::new(rt.alloc());
    open_bytes(&FileKey::new(&KEY)?, &sealed, &mut opened)?;
    same(&rt, &opened, UNDER_THE_FIRST, "under the first key");
    Ok(())
}

/// The byte `a`, sealed under `OTHER_KEY` and random bytes 1 with the AAD `name` by python's `cryptography`, without its header.
const BOUND: &[u8] = b"\x85\xf0\x7a\x0a\x1a\x53\x29\x9a\xd2\x65\x09\xc9\x8d\xda\x54\x10\x1a";

/// Opening the file that is bound to `name` with this AAD ends with this message.
fn opens_with(
    rt: &(impl Abort + AllocGlobal),
    sealed: &[u8],
    aad: &[u8],
    text: &str,
) -> Result<(), Fail>
    requires { length aad.now ≤ 4096 }
{
    let mut opened = Vec::new(rt.alloc());
    let mut input = sealed;
    let key = FileKey::new(&OTHER_KEY)?;
    match open_with_aad(rt.alloc(), &key, aad, &mut input, &mut opened) {
        Ok(()) => {
            equal(rt, text, "opened", text);
            same(rt, &opened, b"a", text);
        }
        Err(error) => displays(rt, &error, text)?,
    }
    Ok(())
}

#[test]
fn bound_to_aad(rt: HostRuntime) -> Result<(), Fail> {
    let random = FileRandom::from_bytes_for_tests([1; 19]);
    let mut sealed = Vec::new(rt.alloc());
    let mut file = b"a".as_slice();
    let key = FileKey::new(&OTHER_KEY)?;
    seal_with_aad(rt.alloc(), &key, random, b"name", &mut file, &mut sealed)?;
    let chunk = sealed.get(HEADER_LEN..).ok_or("a body")?;
    same(&rt, chunk, BOUND, "bound to an AAD");
    opens_with(&rt, &sealed, b"name", "opened")?;
    opens_with(&rt, &sealed, b"", FIRST_REFUSED)?;
    opens_with(&rt, &sealed, b"nam", FIRST_REFUSED)?;
    opens_with(&rt, &sealed, b"Name", FIRST_REFUSED)?;
    let mut opened = Vec::new(rt.alloc());
    open_chunk_at(&key, b"name", &sealed, 0, true, BOUND, &mut opened)?;
    same(&rt, &opened, b"a", "its chunk");
    Ok(())
}

// No clause says that a `Vec` can grow.
#[test]
fn chunks_alone(rt: HostRuntime) -> Result<(), Fail> {
    let key = FileKey::new(&KEY)?;
    for (len, _) in &SEALED {
        let file = file_of(rt.alloc(), *len)?;
        let sealed = sealed_of(rt.alloc(), *len)?;
        assert_eq!(rt; plaintext_len(sealed.len() as u64), Some(*len as u64));
        let body = sealed.get(HEADER_LEN..).ok_or("a body")?;
        let mut opened = Vec::new(rt.alloc());
        let last = body.len().saturating_sub(1) / SEALED_CHUNK_LEN;
        let mut number = 0u32;
        for chunk in body.chunks(SEALED_CHUNK_LEN) {
            let is_last = number as usize == last;
            assert!(rt; chunk.len() <= SEALED_CHUNK_LEN);
            open_chunk_at(&key, &[], &sealed, number, is_last, chunk, &mut opened)?;
            number = number.wrapping_add(1);
        }
        same(&rt, &opened, &file, "its chunks");
    }
    Ok(())
}
