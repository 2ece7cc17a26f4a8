//! Names of files from the command line, and the names of their folders: bytes that need not be UTF-8.

ghost use Rattle.std.specs.Prelude.{◌≡◌, ◌≤◌, ◌++◌, ◌∷◌, ℕ, [], IfOk, true, false, length, nat_eq, take};
ghost use Rattle.std.specs.List.{starts_with};
ghost use Rattle.seal_file.specs.Name.{IsFolderLen};

use std::alloc::{AllocError, Global};
use std::{fmt, str};

/// The most bytes that a file's name has in its folder.
const MAX_LEN_IN_FOLDER: usize = 255;

/// The name of a file, as bytes.
#[derive(Clone, Drop)]
pub struct Name {
    bytes: Vec<u8>,
}

impl Name {
    /// Creates a name from its bytes.
    pub fn new(bytes: Vec<u8>) -> Name {
        Name { bytes }
    }

    /// Returns the bytes of the name.
    pub fn as_bytes(&self) -> &[u8] {
        &self.bytes
    }

    /// Returns whether the name has no byte.
    pub fn is_empty(&self) -> bool {
        self.bytes.is_empty()
    }

    /// Returns how many bytes of the name are the name of its folder, with the `/` after it.
    fn folder_len(&self) -> usize
        ensures folder { IsFolderLen self.now.bytes.items result }
        ensures most { result ≤ length self.now.bytes.items }
    {
        match self.bytes.iter().rposition(|byte| *byte == b'/') {
            Some(at) => at + 1,
            None => 0,
        }
    }

    /// Returns the name of the folder that the file is in.
    pub fn folder(&self, alloc: Global) -> Result<Name, AllocError> {
        let mut bytes = self.bytes.to_vec(alloc)?;
        bytes.truncate(self.folder_len());
        if bytes.is_empty() {
            bytes.push(b'.')?;
        }
        Ok(Name { bytes })
    }

    /// Returns the name that a link leads to, given the link's name and text.
    pub fn target(&self, alloc: Global, text: &[u8]) -> Result<Name, AllocError>
        ensures absolute { starts_with nat_eq text.now (47 ∷ []) ≡ true → IfOk result (λ it. it.bytes.items ≡ text.now) }
        ensures relative { starts_with nat_eq text.now (47 ∷ []) ≡ false → IfOk result (λ it.
            (n : ℕ) × IsFolderLen self.now.bytes.items n × (it.bytes.items ≡ take n self.now.bytes.items ++ text.now)) }
    {
        let is_absolute = text.starts_with(b"/");
        let mut bytes = self.bytes.to_vec(alloc)?;
        bytes.truncate(if is_absolute { 0 } else { self.folder_len() });
        bytes.extend_from_slice(text)?;
        Ok(Name { bytes })
    }

    /// Returns the name followed by these bytes. If that is too long for a file, the name is cut before them, at the end of a
    /// character.
    pub fn with_end(&self, alloc: Global, end: &[u8]) -> Result<Name, AllocError> {
        let room = MAX_LEN_IN_FOLDER.saturating_sub(end.len());
        let most = self.folder_len().saturating_add(room);
        let kept = match str::from_utf8(&self.bytes) {
            Ok(text) => text.floor_char_boundary(most),
            Err(_) => most,
        };
        let mut bytes = self.bytes.to_vec(alloc)?;
        bytes.truncate(kept);
        bytes.extend_from_slice(end)?;
        Ok(Name { bytes })
    }
}

/// Prints `?` for each control character and, in a name that is not UTF-8, for each byte that is not printable ASCII.
impl fmt::Display for Name {
    fn fmt<W: fmt::Write>(&self, f: &mut fmt::Formatter<W>) -> fmt::Result {
        match str::from_utf8(&self.bytes) {
            Ok(text) => {
                for c in text.chars() {
                    write!(f, "{}", if c.is_control() { '?' } else { c })?;
                }
            }
            Err(_) => {
                for byte in &self.bytes {
                    let is_printed = *byte >= b' ' && *byte < 0x7f;
                    write!(f, "{}", if is_printed { char::from(*byte) } else { '?' })?;
                }
            }
        }
        Ok(())
    }
}
