//! Reading at any position: over a file in memory, over an input that fails, and over a `File` that is cut.

ghost use Rattle.std.specs.Prelude.{◌≡◌};

use crate::tests::checks::{displays, holds, same};
use crate::tests::sealed_files::{ENDS_EARLY, KEY, file_of};
use sealed_file::{
    CHUNK_LEN, FileError, FileKey, FileRandom, HEADER_LEN, ReadAt, SEALED_CHUNK_LEN, SealedReader,
    seal_bytes,
};
use std::alloc::Global;
use std::fs::{self, File};
use std::io::{self, Cursor, ErrorKind};
use std::os::unix::fs::FileExt;
use std::process::{self, Abort};
use std::test::Fail;

/// The length of the test file: two whole chunks, and a short one.
const LEN: usize = 2 * CHUNK_LEN + 5;

/// Where the sealed file begins in the inputs of some tests.
const START: usize = 6;

/// Places in the test file, how many bytes are asked for, and how many of them come.
const READS: [(usize, usize, usize); 12] = [
    (0, 1, 1),
    (CHUNK_LEN - 1, 2, 1),
    (CHUNK_LEN, 10, 10),
    (70000, 100, 100),
    (0, CHUNK_LEN + 1, CHUNK_LEN),
    (2 * CHUNK_LEN - 3, 3, 3),
    (2 * CHUNK_LEN, 100, 5),
    (LEN - 1, 100, 1),
    (LEN, 100, 0),
    (LEN + 1, 100, 0),
    (usize::MAX, 100, 0),
    (1, 0, 0),
];

/// The test file, sealed.
fn sealed_test_file(alloc: Global) -> Result<Vec<u8>, Fail> {
    let mut sealed = Vec::new(alloc);
    let random = FileRandom::from_bytes_for_tests([9; 19]);
    seal_bytes(
        &FileKey::new(&KEY)?,
        random,
        &file_of(alloc, LEN)?,
        &mut sealed,
    )?;
    Ok(sealed)
}

/// The test file, sealed, after the `START` bytes `before`.
fn input_of(alloc: Global) -> Result<Vec<u8>, Fail> {
    let mut input = b"before".to_vec(alloc)?;
    input.extend_from_slice(&sealed_test_file(alloc)?)?;
    Ok(input)
}

/// Asserts that a read has as many bytes as wanted, and that they are those of the file.
fn reads<R: ReadAt + Drop>(
    rt: &impl Abort,
    reader: &mut SealedReader<R>,
    file: &[u8],
    (at, buf): (usize, &mut [u8]),
    wanted: usize,
) -> Result<(), Fail> {
    let count = reader.read_at(at as u64, buf)?;
    assert_eq!(rt; count, wanted);
    let read = buf.get(..count).ok_or("bytes that were read")?;
    same(
        rt,
        read,
        file.get(at..)
            .unwrap_or(&[])
            .get(..count)
            .ok_or("bytes of the file")?,
        "read",
    );
    Ok(())
}

#[test]
fn bytes_at_any_place(rt: HostRuntime) -> Result<(), Fail> {
    let file = file_of(rt.alloc(), LEN)?;
    let input = input_of(rt.alloc())?;
    let key = FileKey::new(&KEY)?;
    let mut reader = SealedReader::new(rt.alloc(), &key, &[], Cursor::new(input.as_slice()), 6)?;
    assert_eq!(rt; reader.len(), LEN as u64);
    for (at, asked, wanted) in &READS {
        let mut buf = file_of(rt.alloc(), *asked)?;
        reads(&rt, &mut reader, &file, (*at, &mut buf), *wanted)?;
    }
    Ok(())
}

/// Asserts that no reader is made over these bytes, with this message.
fn refused(
    rt: &(impl Abort + AllocGlobal),
    key: &[u8],
    sealed: &[u8],
    text: &str,
) -> Result<(), Fail> {
    match SealedReader::new(rt.alloc(), &FileKey::new(key)?, &[], Cursor::new(sealed), 0) {
        Ok(_) => holds(rt, false, text),
        Err(error) => displays(rt, &error, text)?,
    }
    Ok(())
}

#[test]
fn cut_files(rt: HostRuntime) -> Result<(), Fail> {
    let sealed = sealed_test_file(rt.alloc())?;
    let chunk = SEALED_CHUNK_LEN;
    for (len, text) in [
        (0, "the sealed file ends early"),
        (HEADER_LEN - 1, "the sealed file ends early"),
        (HEADER_LEN, "the sealed file ends early"),
        (HEADER_LEN + chunk, "the sealed file ends early"),
        (HEADER_LEN + chunk + 15, "the sealed file ends early"),
        (HEADER_LEN + chunk + 16, "chunk 1 was changed or cut"),
        (HEADER_LEN + 2 * chunk, "the sealed file ends early"),
        (HEADER_LEN + 2 * chunk + 20, "chunk 2 was changed or cut"),
    ] {
        refused(&rt, &KEY, sealed.get(..len).ok_or("a cut file")?, text)?;
    }
    refused(
        &rt,
        &[7; 32],
        &sealed,
        "the key or passphrase is wrong, or the header was changed",
    )
}

#[test]
fn a_changed_chunk(rt: HostRuntime) -> Result<(), Fail> {
    let mut sealed = sealed_test_file(rt.alloc())?;
    let place = sealed
        .get_mut(HEADER_LEN + SEALED_CHUNK_LEN)
        .ok_or("a place")?;
    *place ^= 1;
    let key = FileKey::new(&KEY)?;
    let mut reader = SealedReader::new(rt.alloc(), &key, &[], Cursor::new(sealed.as_slice()), 0)?;
    let mut buf = [0; 4];
    match reader.read_at(CHUNK_LEN as u64, &mut buf) {
        Ok(_) => holds(&rt, false, "a changed chunk"),
        Err(error) => displays(&rt, &error, "chunk 1 was changed or cut")?,
    }
    same(&rt, &buf, &[0; 4], "the buffer");
    let file = file_of(rt.alloc(), LEN)?;
    reads(&rt, &mut reader, &file, (0, &mut buf), 4)
}

/// An input of which one call fails with `BrokenPipe`, a read after it has written half of its buffer. Later calls succeed.
#[derive(Drop)]
struct FailingInput<'a> {
    bytes: &'a [u8],
    made: u32,
    failing: u32,
}

impl FailingInput<'_> {
    /// Counts a call, and fails if it is the one that must fail.
    fn count(&mut self) -> io::Result<()>
        ensures { self.new.bytes.now ≡ self.old.bytes.now }
    {
        let number = self.made;
        self.made = number.wrapping_add(1);
        if number == self.failing {
            return Err(io::Error::from(ErrorKind::BrokenPipe));
        }
        Ok(())
    }
}

impl ReadAt for FailingInput<'_> {
    ghost use Rattle.std.specs.Prelude.{None, Some, [], ◌∷◌};

    ghost bytes = { λ _. None };

    ghost contents = { λ input. Some (input.bytes.now ∷ []) };

    fn size(&mut self) -> io::Result<u64> {
        self.count()?;
        self.bytes.size()
    }

    fn read_at(&mut self, at: u64, buf: &mut [u8]) -> io::Result<usize> {
        let half = buf.len() / 2;
        self.bytes.read_at(at, &mut buf[..half])?;
        self.count()?;
        self.bytes.read_at(at, buf)
    }
}

/// Asserts that a call failed with the error of the input.
fn is_of_the_call<T>(rt: &impl Abort, outcome: &Result<T, FileError>) {
    let fails =
        matches!(outcome, Err(FileError::Io(error)) if error.kind() == ErrorKind::BrokenPipe);
    holds(rt, fails, "the error");
}

// No clause says which error a call has that fails.
#[test]
fn each_failed_call_ends_it(rt: HostRuntime) -> Result<(), Fail> {
    let sealed = sealed_test_file(rt.alloc())?;
    let key = FileKey::new(&KEY)?;
    for failing in 0..3u32 {
        let input = FailingInput {
            bytes: &sealed,
            made: 0,
            failing,
        };
        is_of_the_call(&rt, &SealedReader::new(rt.alloc(), &key, &[], input, 0));
    }
    let input = FailingInput {
        bytes: &sealed,
        made: 0,
        failing: 3,
    };
    let mut reader = SealedReader::new(rt.alloc(), &key, &[], input, 0)?;
    let mut buf = [7; 4];
    is_of_the_call(&rt, &reader.read_at(0, &mut buf));
    same(&rt, &buf, &[7; 4], "the buffer");
    let count = reader.read_at(1, &mut buf)?;
    assert_eq!(rt; count, 4);
    same(&rt, &buf, &[1, 2, 3, 4], "read");
    Ok(())
}

// The failed read of chunk 0 has overwritten the front of the buffer, where the message of chunk 1 was.
#[test]
fn after_a_failed_read(rt: HostRuntime) -> Result<(), Fail> {
    let file = file_of(rt.alloc(), LEN)?;
    let bytes = input_of(rt.alloc())?;
    let key = FileKey::new(&KEY)?;
    let input = FailingInput {
        bytes: &bytes,
        made: 0,
        failing: 4,
    };
    let mut reader = SealedReader::new(rt.alloc(), &key, &[], input, START as u64)?;
    let mut buf = [7; 4];
    reads(&rt, &mut reader, &file, (CHUNK_LEN + 1, &mut buf), 4)?;
    is_of_the_call(&rt, &reader.read_at(0, &mut buf));
    for at in [CHUNK_LEN + 1, 0, LEN - 4] {
        reads(&rt, &mut reader, &file, (at, &mut buf), 4)?;
    }
    assert_eq!(rt; reader.len(), LEN as u64);
    Ok(())
}

/// A file of these bytes, which has no name.
fn file_with(rt: &HostRuntime, bytes: &[u8]) -> Result<File, Fail> {
    let id = process::id(rt.process());
    let name = format!(in rt.alloc(); "/tmp/sealed_file_tests_{id}")?;
    let file = File::options()
        .read(true)
        .write(true)
        .create_new(true)
        .open(rt, name.as_str())?;
    fs::remove_file(rt, name.as_str())?;
    file.write_all_at(bytes, 0)?;
    Ok(file)
}

/// Asserts that a read fails with this message.
fn fails<R: ReadAt + Drop>(
    rt: &(impl Abort + AllocGlobal),
    reader: &mut SealedReader<R>,
    at: usize,
    text: &str,
) -> Result<(), Fail> {
    match reader.read_at(at as u64, &mut [0; 4]) {
        Ok(_) => holds(rt, false, text),
        Err(error) => displays(rt, &error, text)?,
    }
    Ok(())
}

// The file is cut within chunk 1, while the reader holds chunk 0, and gets its bytes again.
#[test]
fn over_a_file_that_is_cut(rt: HostRuntime) -> Result<(), Fail> {
    let file = file_of(rt.alloc(), LEN)?;
    let bytes = input_of(rt.alloc())?;
    let input = file_with(&rt, &bytes)?;
    let other = input.try_clone()?;
    let key = FileKey::new(&KEY)?;
    let mut reader = SealedReader::new(rt.alloc(), &key, &[], input, START as u64)?;
    let mut buf = [7; 4];
    reads(&rt, &mut reader, &file, (0, &mut buf), 4)?;
    other.set_len((START + HEADER_LEN + SEALED_CHUNK_LEN + 100) as u64)?;
    fails(&rt, &mut reader, CHUNK_LEN, ENDS_EARLY)?;
    reads(&rt, &mut reader, &file, (1, &mut buf), 4)?;
    fails(&rt, &mut reader, LEN - 1, ENDS_EARLY)?;
    assert_eq!(rt; reader.len(), LEN as u64);
    other.write_all_at(&bytes, 0)?;
    reads(&rt, &mut reader, &file, (LEN - 1, &mut buf), 1)
}
