//! Arguments of calls, from a test case of the GCM specification.

use crate::tests::examples::one_nonce::OneNonce;
use aead_ciphers::aead::{
    AES_128_GCM, AES_256_GCM, Aad, Algorithm, BoundKey, CounterSequence, LessSafeKey, Nonce,
    OpeningKey, SealingKey, Tag, UnboundKey,
};
use aead_ciphers_base::aes;
use aead_vectors::gcm_spec::Case;
use std::alloc::Global;
use std::test::Fail;

/// Returns the algorithm for the length of the key.
fn algorithm(case: &Case) -> &'static Algorithm {
    if case.key.len() == aes::AES_128_KEY_LEN {
        &AES_128_GCM
    } else {
        &AES_256_GCM
    }
}

/// Creates an unbound key.
pub(crate) fn unbound_key(case: &Case) -> Result<UnboundKey, Fail> {
    Ok(UnboundKey::new(algorithm(case), &case.key)?)
}

pub(crate) fn key(case: &Case) -> Result<LessSafeKey, Fail> {
    Ok(LessSafeKey::new(unbound_key(case)?))
}

/// Creates a sealing key with `count` nonces, of which the first is zero.
pub(crate) fn sealing(case: &Case, count: u64) -> Result<SealingKey<CounterSequence>, Fail> {
    let sequence = CounterSequence::new([0; 4], 0, count)?;
    Ok(SealingKey::new(unbound_key(case)?, sequence))
}

/// Creates an opening key with the nonces of `sealing`.
pub(crate) fn opening(case: &Case, count: u64) -> Result<OpeningKey<CounterSequence>, Fail> {
    let sequence = CounterSequence::new([0; 4], 0, count)?;
    Ok(OpeningKey::new(unbound_key(case)?, sequence))
}

/// Creates an opening key with the nonce of the case alone.
pub(crate) fn opening_once(case: &Case) -> Result<OpeningKey<OneNonce>, Fail> {
    Ok(OpeningKey::new(unbound_key(case)?, OneNonce::new(case.nonce)))
}

pub(crate) fn nonce(case: &Case) -> Nonce {
    Nonce::assume_unique_for_key(case.nonce)
}

pub(crate) fn aad(case: &Case) -> Aad<'_> {
    Aad::from(case.aad.as_slice())
}

/// Returns a tag with its last bit flipped.
pub(crate) fn false_tag(mut tag: [u8; 16]) -> Tag {
    tag[15] ^= 1;
    Tag::from(tag)
}

/// Returns `front`, the ciphertext and the tag.
pub(crate) fn sealed(alloc: Global, case: &Case, front: &[u8]) -> Result<Vec<u8>, Fail> {
    let mut bytes = front.to_vec(alloc)?;
    bytes.extend_from_slice(&case.ciphertext)?;
    bytes.extend_from_slice(&case.tag)?;
    Ok(bytes)
}

/// Returns the contents of a buffer of four bytes, the ciphertext and the tag after it is opened at offset 4: the message,
/// followed by unchanged bytes.
pub(crate) fn opened_at_4(alloc: Global, case: &Case) -> Result<Vec<u8>, Fail> {
    let before = sealed(alloc, case, &[0; 4])?;
    let mut bytes = case.message.clone()?;
    bytes.extend_from_slice(before.get(bytes.len()..).ok_or("a message's length")?)?;
    Ok(bytes)
}
