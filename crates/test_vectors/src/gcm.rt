//! Vectors of AES-GCM, which a key of `aead_ciphers` and one of `aead_ciphers_wide` seal and open.

use crate::NoAnswer;
use aead_ciphers::aead::{
    AES_128_GCM, AES_256_GCM, Aad, Algorithm, LessSafeKey, Nonce, Tag, UnboundKey, Unspecified,
};
use aead_ciphers::aeadrun::text;
use aead_ciphers_wide::aead::LessSafeKey as WideKey;
use std::alloc::Global;

/// The algorithm of a key: AES-128-GCM for 16 bytes, or else AES-256-GCM.
fn algorithm_of_key(key: &[u8]) -> &'static Algorithm {
    if key.len() == AES_128_GCM.key_len() {
        &AES_128_GCM
    } else {
        &AES_256_GCM
    }
}

/// Keeps the bytes of a key, which each crate's key expands.
fn unbound_key(bytes: &[u8]) -> Result<UnboundKey, NoAnswer> {
    Ok(UnboundKey::new(algorithm_of_key(bytes), bytes)?)
}

/// Returns the response to a vector for which the two keys have different results.
fn differs(alloc: Global) -> Result<String, NoAnswer> {
    Ok(format!(in alloc; "the keys differ")?)
}

/// Seals a plaintext by both keys, and returns CT TAG.
pub(crate) fn seal_by_both(
    alloc: Global,
    key: &[u8],
    iv: &[u8],
    aad: &[u8],
    in_out: &mut [u8],
) -> Result<String, NoAnswer> {
    let nonce = Nonce::try_assume_unique_for_key(iv)?;
    let mut sealed = in_out.to_vec(alloc)?;
    let wide_tag = WideKey::new(unbound_key(key)?).seal_in_place_separate_tag(
        Nonce::try_assume_unique_for_key(iv)?,
        Aad::from(aad),
        &mut sealed,
    )?;
    let tag = LessSafeKey::new(unbound_key(key)?).seal_in_place_separate_tag(
        nonce,
        Aad::from(aad),
        in_out,
    )?;
    if wide_tag.as_ref() != tag.as_ref() || sealed.as_slice() != &*in_out {
        return differs(alloc);
    }
    let ciphertext = text(alloc, in_out)?;
    let tag = text(alloc, tag.as_ref())?;
    Ok(format!(in alloc; "{ciphertext} {tag}")?)
}

/// Opens a ciphertext by both keys, and returns PT, or FAIL and the buffer as the calls left it.
pub(crate) fn open_by_both(
    alloc: Global,
    key: &[u8],
    iv: &[u8],
    aad: &[u8],
    in_out: &mut [u8],
    tag: &[u8],
) -> Result<String, NoAnswer> {
    let tag = Tag::try_from(tag)?;
    let mut opened = in_out.to_vec(alloc)?;
    let by_wide = WideKey::new(unbound_key(key)?).open_in_place_separate_tag_to_front(
        Nonce::try_assume_unique_for_key(iv)?,
        Aad::from(aad),
        tag,
        &mut opened,
        0..,
    );
    let nonce = Nonce::try_assume_unique_for_key(iv)?;
    let by_other = LessSafeKey::new(unbound_key(key)?).open_in_place_separate_tag_to_front(
        nonce,
        Aad::from(aad),
        tag,
        in_out,
        0..,
    );
    if by_wide != by_other || opened.as_slice() != &*in_out {
        return differs(alloc);
    }
    let left = text(alloc, in_out)?;
    match by_other {
        Ok(_) => Ok(left),
        Err(Unspecified) => Ok(format!(in alloc; "FAIL {left}")?),
    }
}
