//! The random bytes of a sealed file: its context and its prefix.

ghost use Rattle.std.specs.Prelude.{◌≡◌, length, IfOk};

use crate::header::RANDOM_LEN;
use std::io;
use std::marker::Model;
use std::random::RandomSource;

/// The random bytes of one file: its context and its prefix.
///
/// Sealing takes it by value, and it cannot be copied, so that no two files are sealed under the same one.
#[derive(Drop)]
pub struct FileRandom {
    bytes: [u8; RANDOM_LEN],
}

impl Model for FileRandom {
    ghost use Rattle.std.specs.Prelude.{ℕ, List};

    ghost Value = { List ℕ };

    ghost view = { λ random. random.bytes };
}

impl FileRandom {
    /// Creates the random bytes of a file from those in its header.
    pub(crate) fn of_bytes(bytes: [u8; RANDOM_LEN]) -> FileRandom
        ensures { result ≡ bytes }
    {
        FileRandom { bytes }
    }

    /// Returns the bytes.
    pub(crate) fn as_bytes(&self) -> &[u8; RANDOM_LEN]
        ensures { result.now ≡ self.now }
    {
        &self.bytes
    }

    /// Draws the random bytes of a file, as from the system by a program's runtime.
    ///
    /// Fails with the error of the source.
    pub fn draw(source: &impl RandomSource) -> io::Result<FileRandom>
        ensures { IfOk result (λ random. length random ≡ 19) }
    {
        let mut bytes = [0; RANDOM_LEN];
        source.fill_bytes(&mut bytes)?;
        Ok(FileRandom { bytes })
    }

    /// Takes these bytes, so that a test can compare the sealed file. Two files with the same key and the same bytes reveal the
    /// XOR of their contents, and let others forge chunks.
    pub fn from_bytes_for_tests(bytes: [u8; RANDOM_LEN]) -> FileRandom
        ensures { result ≡ bytes }
    {
        FileRandom::of_bytes(bytes)
    }
}
