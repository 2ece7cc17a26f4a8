//! The key that files are sealed under.

ghost use Rattle.std.specs.Prelude.{[], ◌≡◌, ◌↔◌, length, IsOk, IsTrue, IfOk, IfErr};

use crate::derivation::commitment;
use crate::error::FileError;
use crate::header::{Context, VERSION, cipher_of};
use aead_ciphers_base::aes::AES_256_KEY_LEN;
use std::marker::Model;
use xaes::Xaes256Gcm;

/// A key of 32 bytes. The key of each file is derived from it.
#[derive(Drop)]
pub struct FileKey {
    pub(crate) bytes: [u8; AES_256_KEY_LEN],
}

impl Model for FileKey {
    ghost use Rattle.std.specs.Prelude.{ℕ, List};

    ghost Value = { List ℕ };

    ghost view = { λ file_key. file_key.bytes };
}

impl FileKey {
    ghost use Rattle.sealed_file.specs.Derivation.{commitment};
    ghost use Rattle.sealed_file.specs.Format.{secret};
    ghost use Rattle.sealed_file.specs.Opening.{HasHeader, header_of};
    ghost use Rattle.xaes.specs.Derivation.{derived_key};

    /// Creates a key from 32 bytes.
    ///
    /// Fails with `KeyLength` if `bytes` does not have 32 bytes.
    pub fn new(bytes: &[u8]) -> Result<FileKey, FileError>
        ensures accepted { IsOk result ↔ (length bytes.now ≡ 32) }
        ensures made { IfOk result (λ key. key ≡ bytes.now) }
        ensures refused { IfErr result (λ error. error ≡ FileError.KeyLength) }
    {
        let bytes = bytes.as_array().ok_or(FileError::KeyLength)?;
        Ok(FileKey { bytes: *bytes })
    }

    /// The key of XAES-256-GCM with the same bytes, which derives the keys of files.
    pub(crate) fn xaes(&self) -> Xaes256Gcm
        ensures { result ≡ self.now }
    {
        Xaes256Gcm::new(&self.bytes)
    }

    /// Returns the AES-256-GCM key of the files whose random bytes begin with this context. It is the key that
    /// XAES-256-GCM derives for a nonce that begins with the context.
    pub fn derived_key(&self, context: &Context) -> [u8; AES_256_KEY_LEN]
        ensures { result ≡ derived_key self.now context.now }
    {
        self.xaes().derived_key(context)
    }

    /// Returns whether the file that begins with these bytes has the header that is defined for this key: its commitment is that
    /// of the key. The chunks are not opened.
    pub fn is_of(&self, header: &[u8]) -> bool
        ensures { IsTrue result ↔ HasHeader (secret self.now []) (header_of header.now) }
    {
        cipher_of(VERSION, self, &[], header).is_ok()
    }

    /// Returns the commitment to this key, in the headers of the same files.
    pub fn commitment(&self, context: &Context) -> [u8; AES_256_KEY_LEN]
        ensures { result ≡ commitment self.now context.now }
    {
        commitment(&self.xaes(), context)
    }
}
