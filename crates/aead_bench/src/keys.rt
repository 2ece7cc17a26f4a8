//! The keys of the loops: AES-GCM and header protection keys, of `aead_ciphers` or of `aead_ciphers_wide`.

use aead_ciphers::aead::generic::LessSafeKey;
use aead_ciphers::aead::quic::{self, HeaderProtectionKey};
use aead_ciphers::aead::{AES_128_GCM, AES_256_GCM, Algorithm, UnboundKey, Unspecified};
use aead_ciphers::aes_gcm::GcmKey;
use aead_ciphers_base::aes::AES_128_KEY_LEN;
use aead_ciphers_wide::aead::quic::HeaderProtectionKey as WideHeaderKey;

/// The bytes of a header protection mask.
pub(crate) const MASK_LEN: usize = 5;

/// The algorithm for a key of 16 or 32 bytes.
pub(crate) fn algorithm_of_key(key: &[u8]) -> &'static Algorithm {
    match key.len() {
        AES_128_KEY_LEN => &AES_128_GCM,
        _ => &AES_256_GCM,
    }
}

/// The header protection algorithm by AES for a key of 16 or 32 bytes.
pub(crate) fn header_algorithm(key: &[u8]) -> &'static quic::Algorithm {
    match key.len() {
        AES_128_KEY_LEN => &quic::AES_128,
        _ => &quic::AES_256,
    }
}

/// Makes a key of 16 or 32 bytes.
pub(crate) fn key_of_bytes<K: GcmKey>(bytes: &[u8]) -> Result<LessSafeKey<K>, Unspecified> {
    Ok(LessSafeKey::new(UnboundKey::new(algorithm_of_key(bytes), bytes)?))
}

/// A key of header protection.
pub(crate) trait MaskKey {
    /// Makes the mask of a sample.
    fn mask(&self, sample: &[u8]) -> Result<[u8; MASK_LEN], Unspecified>;
}

impl MaskKey for HeaderProtectionKey {
    fn mask(&self, sample: &[u8]) -> Result<[u8; MASK_LEN], Unspecified> {
        self.new_mask(sample)
    }
}

impl MaskKey for WideHeaderKey {
    fn mask(&self, sample: &[u8]) -> Result<[u8; MASK_LEN], Unspecified> {
        self.new_mask(sample)
    }
}
