//! Arguments of calls, from a test case of the GCM specification. Its keys are over any expanded key.

use aead_ciphers::aead::generic::{LessSafeKey, OpeningKey, SealingKey};
use aead_ciphers::aead::{
    AES_128_GCM, AES_256_GCM, Aad, Algorithm, BoundKey, CounterSequence, Nonce, UnboundKey,
};
use aead_ciphers::aes_gcm::GcmKey;
use aead_ciphers_base::aes::{AES_128_KEY_LEN, Work};
use aead_ciphers_wide::aes::Width;
use aead_ciphers_wide::aes_gcm::ExpandedKey;
use aead_vectors::gcm_spec::Case;
use std::alloc::Global;
use std::test::Fail;

/// Returns the algorithm for the length of the key.
fn algorithm(case: &Case) -> &'static Algorithm {
    match case.key.len() {
        AES_128_KEY_LEN => &AES_128_GCM,
        _ => &AES_256_GCM,
    }
}

fn unbound_key(case: &Case) -> Result<UnboundKey, Fail> {
    Ok(UnboundKey::new(algorithm(case), &case.key)?)
}

pub(crate) fn key<K: GcmKey>(case: &Case) -> Result<LessSafeKey<K>, Fail> {
    Ok(LessSafeKey::new(unbound_key(case)?))
}

/// Creates a key of `aead_ciphers_wide` with planes of 256 bits.
pub(crate) fn wider_key_of_bytes(
    algorithm: &'static Algorithm,
    bytes: &[u8],
) -> Result<LessSafeKey<ExpandedKey>, Fail> {
    let bytes = algorithm.key_bytes(bytes)?;
    let mut key = ExpandedKey::zeros();
    key.expand_with_width(bytes, Width::Bits256, &mut Work::new());
    Ok(LessSafeKey::from_expanded(algorithm, key))
}

pub(crate) fn wider_key(case: &Case) -> Result<LessSafeKey<ExpandedKey>, Fail> {
    wider_key_of_bytes(algorithm(case), &case.key)
}

/// Creates a sealing key with `count` nonces, of which the first is zero.
pub(crate) fn sealing<K: GcmKey>(
    case: &Case,
    count: u64,
) -> Result<SealingKey<K, CounterSequence>, Fail> {
    let sequence = CounterSequence::new([0; 4], 0, count)?;
    Ok(SealingKey::new(unbound_key(case)?, sequence))
}

/// Creates an opening key with the nonces of `sealing`.
pub(crate) fn opening<K: GcmKey>(
    case: &Case,
    count: u64,
) -> Result<OpeningKey<K, CounterSequence>, Fail> {
    let sequence = CounterSequence::new([0; 4], 0, count)?;
    Ok(OpeningKey::new(unbound_key(case)?, sequence))
}

pub(crate) fn nonce(case: &Case) -> Nonce {
    Nonce::assume_unique_for_key(case.nonce)
}

pub(crate) fn aad(case: &Case) -> Aad<'_> {
    Aad::from(case.aad.as_slice())
}

/// Returns `front`, the ciphertext and the tag.
pub(crate) fn sealed(alloc: Global, case: &Case, front: &[u8]) -> Result<Vec<u8>, Fail> {
    let mut bytes = front.to_vec(alloc)?;
    bytes.extend_from_slice(&case.ciphertext)?;
    bytes.extend_from_slice(&case.tag)?;
    Ok(bytes)
}
