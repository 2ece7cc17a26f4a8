//! The AES-GCM key of `aes_gcm::seal` and `aes_gcm::open`, which count their cipher blocks and field products.

ghost use Rattle.std.specs.Prelude.{◌≡◌, IsOk, IfOk};
ghost use Rattle.aead_ciphers_base.specs.KeyBytes.{key_bytes};
ghost use Rattle.aead_ciphers_base.specs.Work.{Adds, CanAdd};

use crate::aes_gcm::GcmKey;
use aead_ciphers_base::aes::{KeyBytes, Work};
use aead_ciphers_base::error::Unspecified;
use std::alloc::AllocError;
use std::marker::Model;

/// An AES-GCM key for `aes_gcm::seal` and `aes_gcm::open`: the expanded AES key and its hash subkey.
#[derive(Drop)]
pub struct Key<K: GcmKey> {
    pub(super) expanded: K,
}

impl<K: GcmKey> Model for Key<K> {
    ghost use Rattle.std.specs.Prelude.{ℕ, List};

    ghost Value = { List ℕ };

    ghost view = { λ key. K.bytes_of key.expanded };

    ghost invariant = { λ key. K.is_expanded key.expanded };
}

/// Copies the expanded key. Cloning allocates no memory and always succeeds.
impl<K: GcmKey> Clone for Key<K> {
    ghost use Rattle.std.specs.Prelude.{◌≡◌, ⊤};

    ghost is_clone = { λ key clone. clone ≡ key };

    ghost is_infallible = { λ _. ⊤ };

    fn clone(&self) -> Result<Self, AllocError> {
        Ok(Key {
            expanded: self.expanded.clone()?,
        })
    }
}

impl<K: GcmKey> Key<K> {
    /// Expands a key of 16 or 32 bytes, and computes its hash subkey by one cipher block (SP 800-38D section 7.1
    /// step 1). Never fails.
    pub fn new(bytes: KeyBytes<'_>, work: &mut Work) -> Result<Self, Unspecified>
        requires { CanAdd work.old 1 0 }
        ensures accepted { IsOk result }
        ensures made { IfOk result (λ key. key ≡ key_bytes bytes.entry) }
        ensures worked { Adds work.old work.new 1 0 }
    {
        let mut expanded = K::zeros();
        expanded.expand(bytes, work);
        Ok(Key { expanded })
    }
}
