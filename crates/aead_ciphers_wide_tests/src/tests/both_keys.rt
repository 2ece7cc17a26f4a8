//! Tests that the `LessSafeKey` of this crate, with planes of both widths, and the one of `aead_ciphers` seal as a reference
//! implementation does, and that each width opens at each start what was sealed.

use crate::tests::cases::wider_key_of_bytes;
use crate::tests::checks::{equal, holds, same};
use aead_ciphers::aead::generic::LessSafeKey;
use aead_ciphers::aead::{
    AES_128_GCM, AES_256_GCM, Aad, Algorithm, LessSafeKey as NarrowKey, Nonce, UnboundKey,
};
use aead_ciphers::aes_gcm::GcmKey;
use aead_ciphers_base::aes::{self, KeyBytes};
use aead_ciphers_wide::aead::LessSafeKey as WideKey;
use std::alloc::Global;
use std::ops::Range;
use std::process::Abort;
use std::test::Fail;
use test_support::messages::{LONG_LENS, counting};
use test_support::reference;

/// Where the ciphertext begins in the buffers that are opened.
const STARTS: [usize; 9] = [0, 1, 4, 15, 16, 17, 3071, 3072, 3073];

/// A key by the reference implementation and by both crates, with planes of 128 and of 256 bits.
#[derive(Drop)]
struct BothKeys {
    reference: aes::Key,
    narrow: NarrowKey,
    wide: WideKey,
    wider: WideKey,
}

fn both_keys(algorithm: &'static Algorithm) -> Result<BothKeys, Fail> {
    let bytes = [3; 32];
    let bytes = &bytes[..algorithm.key_len().min(32)];
    Ok(BothKeys {
        reference: aes::Key::new(KeyBytes::from_slice(bytes)?)?,
        narrow: NarrowKey::new(UnboundKey::new(algorithm, bytes)?),
        wide: WideKey::new(UnboundKey::new(algorithm, bytes)?),
        wider: wider_key_of_bytes(algorithm, bytes)?,
    })
}

const NONCE: [u8; 12] = [9; 12];

fn nonce() -> Nonce {
    Nonce::assume_unique_for_key(NONCE)
}

/// Asserts that a key seals a message to these bytes and a tag.
fn seals_to<K: GcmKey>(
    rt: &impl Abort,
    alloc: Global,
    key: &LessSafeKey<K>,
    aad: &[u8],
    (message, wanted): (&[u8], &[u8]),
) -> Result<(), Fail> {
    let mut found = message.to_vec(alloc)?;
    let tag = key.seal_in_place_separate_tag(nonce(), Aad::from(aad), &mut found)?;
    found.extend_from_slice(tag.as_ref())?;
    same(rt, &found, wanted, "ciphertext and tag");
    Ok(())
}

/// Asserts that all keys seal a message as the reference implementation does, and returns the ciphertext and the tag.
fn seal_alike(
    rt: &impl Abort,
    alloc: Global,
    keys: &BothKeys,
    aad: &[u8],
    message: &[u8],
) -> Result<Vec<u8>, Fail> {
    let sealed = reference::sealed(alloc, &keys.reference, &NONCE, aad, message)?;
    seals_to(rt, alloc, &keys.narrow, aad, (message, &sealed))?;
    seals_to(rt, alloc, &keys.wide, aad, (message, &sealed))?;
    seals_to(rt, alloc, &keys.wider, aad, (message, &sealed))?;
    Ok(sealed)
}

/// Opens a ciphertext and its tag from a start by a key, and asserts that the message is at the front and the rest as it
/// was.
fn opens_from(
    rt: &impl Abort,
    alloc: Global,
    key: &WideKey,
    aad: &[u8],
    (message, sealed): (&[u8], &[u8]),
    start: usize,
) -> Result<(), Fail> {
    let mut buffer = vec![in alloc; 0x7b; start]?;
    buffer.extend_from_slice(sealed)?;
    let mut wanted = message.to_vec(alloc)?;
    wanted.extend_from_slice(buffer.get(message.len()..).ok_or("a length")?)?;
    let opened = key.open_within_to_front(nonce(), Aad::from(aad), &mut buffer, start..);
    equal(rt, opened, Ok(message.len()), "the message's length");
    same(rt, &buffer, &wanted, "the buffer");
    Ok(())
}

/// Asserts that a key refuses a false tag and leaves the buffer.
fn refuses(rt: &impl Abort, key: &WideKey, aad: &[u8], mut sealed: Vec<u8>) -> Result<(), Fail> {
    if let Some(last) = sealed.last_mut() {
        *last ^= 1;
    }
    let was = sealed.clone()?;
    let opened = key.open_within_to_front(nonce(), Aad::from(aad), &mut sealed, 0..);
    holds(rt, opened.is_err(), "a false tag");
    same(rt, &sealed, &was, "the buffer");
    Ok(())
}

/// Asserts that the keys agree on a message of `len` bytes, with an AAD of up to 40.
fn agree_at(rt: &impl Abort, alloc: Global, keys: &BothKeys, len: usize) -> Result<(), Fail> {
    let message = counting(alloc, len)?;
    let aad = counting(alloc, len % 41)?;
    let sealed = seal_alike(rt, alloc, keys, &aad, &message)?;
    for start in STARTS {
        opens_from(rt, alloc, &keys.wide, &aad, (&message, &sealed), start)?;
        opens_from(rt, alloc, &keys.wider, &aad, (&message, &sealed), start)?;
    }
    refuses(rt, &keys.wide, &aad, sealed.clone()?)?;
    refuses(rt, &keys.wider, &aad, sealed)
}

/// Asserts that the keys agree at each length of a range.
fn agree(
    rt: &(impl Abort + AllocGlobal),
    algorithm: &'static Algorithm,
    lens: Range<usize>,
) -> Result<(), Fail> {
    let keys = both_keys(algorithm)?;
    for len in lens {
        agree_at(rt, rt.alloc(), &keys, len)?;
    }
    Ok(())
}

#[test]
fn to_150_bytes(rt: HostRuntime) -> Result<(), Fail> {
    agree(&rt, &AES_128_GCM, 0..151)
}

#[test]
fn to_300_bytes(rt: HostRuntime) -> Result<(), Fail> {
    agree(&rt, &AES_128_GCM, 151..301)
}

#[test]
fn to_450_bytes(rt: HostRuntime) -> Result<(), Fail> {
    agree(&rt, &AES_128_GCM, 301..451)
}

#[test]
fn to_600_bytes(rt: HostRuntime) -> Result<(), Fail> {
    agree(&rt, &AES_128_GCM, 451..601)
}

#[test]
fn to_150_bytes_under_aes_256(rt: HostRuntime) -> Result<(), Fail> {
    agree(&rt, &AES_256_GCM, 0..151)
}

#[test]
fn to_300_bytes_under_aes_256(rt: HostRuntime) -> Result<(), Fail> {
    agree(&rt, &AES_256_GCM, 151..301)
}

#[test]
fn to_450_bytes_under_aes_256(rt: HostRuntime) -> Result<(), Fail> {
    agree(&rt, &AES_256_GCM, 301..451)
}

#[test]
fn to_600_bytes_under_aes_256(rt: HostRuntime) -> Result<(), Fail> {
    agree(&rt, &AES_256_GCM, 451..601)
}

// Messages are encrypted in chunks of 3,072 bytes.
#[test]
fn around_3072_bytes(rt: HostRuntime) -> Result<(), Fail> {
    for algorithm in [&AES_128_GCM, &AES_256_GCM] {
        let keys = both_keys(algorithm)?;
        for len in LONG_LENS {
            agree_at(&rt, rt.alloc(), &keys, len)?;
        }
    }
    Ok(())
}
