//! AEAD keys without a role, from which the other AEAD keys are made.

ghost use Rattle.std.specs.Prelude.{◌≡◌, ◌↔◌, length, IsOk, IfOk};
ghost use Rattle.aead_ciphers_base.specs.KeyBytes.{key_bytes};
ghost use Rattle.aead_ciphers.specs.Algorithm.{key_len};

use crate::aead::algorithm::Algorithm;
use aead_ciphers_base::aes::{AES_128_KEY_LEN, AES_256_KEY_LEN, KeyBytes};
use aead_ciphers_base::error::Unspecified;
use std::fmt;
use std::marker::Model;

/// An AEAD key without a role or a nonce sequence. It holds the key bytes, which are expanded when it becomes a
/// `LessSafeKey`, a `SealingKey` or an `OpeningKey`.
///
/// # Examples
///
/// ```
/// use deerlapse::aead::{AES_128_GCM, AES_256_GCM, UnboundKey, Unspecified};
///
/// let bytes = [7; 32]; // not a real key
/// let key = UnboundKey::new(&AES_256_GCM, &bytes)?;
/// assert_eq!(key.algorithm(), &AES_256_GCM);
/// assert!(UnboundKey::new(&AES_128_GCM, &bytes).is_err());
/// # Ok::<(), Unspecified>(())
/// ```
#[derive(Drop)]
pub struct UnboundKey {
    algorithm: &'static Algorithm,
    bytes: UnboundBytes,
}

/// The bytes of a key, by its length.
#[derive(Drop)]
enum UnboundBytes {
    AES_128([u8; AES_128_KEY_LEN]),
    AES_256([u8; AES_256_KEY_LEN]),
}

impl Model for UnboundKey {
    ghost use Rattle.aead_ciphers.specs.AeadKey.{AeadKey};
    ghost use Rattle.aead_ciphers.specs.UnboundBytes.{unbound_bytes};

    ghost Value = { AeadKey };

    ghost view = { λ key.
        record { algorithm = key.algorithm.now; bytes = unbound_bytes key.bytes } };
}

impl UnboundKey {
    /// Creates a key for `algorithm` from `key_bytes`.
    ///
    /// # Errors
    ///
    /// Fails with `Unspecified` if `key_bytes` is not `algorithm.key_len()` bytes long.
    pub fn new(algorithm: &'static Algorithm, key_bytes: &[u8]) -> Result<Self, Unspecified>
        ensures accepted { IsOk result ↔ (length key_bytes.now ≡ key_len algorithm.now) }
        ensures made { IfOk result (λ key. key ≡ record { algorithm = algorithm.now; bytes = key_bytes.now }) }
    {
        let bytes = match algorithm.key_bytes(key_bytes)? {
            KeyBytes::AES_128(bytes) => UnboundBytes::AES_128(*bytes),
            KeyBytes::AES_256(bytes) => UnboundBytes::AES_256(*bytes),
        };
        Ok(UnboundKey { algorithm, bytes })
    }

    /// Returns the algorithm of the key.
    pub fn algorithm(&self) -> &'static Algorithm
        ensures { result.now ≡ self.now.algorithm }
    {
        self.algorithm
    }

    /// Returns the bytes of the key.
    pub(crate) fn key_bytes(&self) -> KeyBytes<'_>
        ensures { key_bytes result ≡ self.now.bytes }
    {
        match &self.bytes {
            UnboundBytes::AES_128(bytes) => KeyBytes::AES_128(bytes),
            UnboundBytes::AES_256(bytes) => KeyBytes::AES_256(bytes),
        }
    }
}

impl fmt::Debug for UnboundKey {
    ghost use Rattle.std.specs.Prelude.{Some, codes};
    ghost use Rattle.aead_ciphers.specs.AeadKey.{key_debug_text};

    ghost debug_output = { λ key. Some (key_debug_text (codes "UnboundKey") key) };

    fn fmt<W: fmt::Write>(&self, f: &mut fmt::Formatter<W>) -> fmt::Result {
        let algorithm = self.algorithm();
        write!(f, "UnboundKey {{ algorithm: {algorithm:?} }}")
    }
}
