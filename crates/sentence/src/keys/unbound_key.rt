//! `UnboundKey` of `aead_ciphers`, a key without a role, has the trait `library::UnboundKey`.

use crate::library;
use aead_ciphers::aead::{Algorithm, UnboundKey, Unspecified};

impl library::UnboundKey for UnboundKey {
    ghost key = { λ key. key };

    fn new(algorithm: &'static Algorithm, key_bytes: &[u8]) -> Result<Self, Unspecified> {
        UnboundKey::new(algorithm, key_bytes)
    }
}
