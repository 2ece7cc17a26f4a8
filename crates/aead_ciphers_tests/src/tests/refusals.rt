//! Tests that modified messages are rejected and the buffer is unchanged.

use crate::tests::cases::{aad, false_tag, key, nonce, sealed};
use crate::tests::checks::{equal, holds, same};
use aead_ciphers::aead::{Aad, LessSafeKey};
use aead_vectors::gcm_spec::{CASE_1, CASE_2, CASE_4, Case};
use std::alloc::Global;
use std::process::Abort;
use std::test::Fail;

/// Flips one bit.
fn flip(bytes: &mut [u8], bit: usize) {
    if let Some(byte) = bytes.get_mut(bit / 8) {
        *byte ^= 1 << (bit % 8);
    }
}

/// Asserts that opening at `start` with another AAD or another buffer fails and the buffer is unchanged.
fn is_refused_within(
    rt: &impl Abort,
    (alloc, key, case): (Global, &LessSafeKey, &Case),
    aad: &[u8],
    before: &[u8],
    start: usize,
) -> Result<(), Fail> {
    let mut in_out = before.to_vec(alloc)?;
    let opened = key.open_within(nonce(case), Aad::from(aad), &mut in_out, start..);
    holds(rt, opened.is_err(), "a refusal");
    same(rt, &in_out, before, "the buffer");
    Ok(())
}

/// 60 bytes of ciphertext and 16 of tag after four bytes, and 20 bytes of AAD.
#[test]
fn each_flipped_bit_is_refused_within(rt: HostRuntime) -> Result<(), Fail> {
    let case = Case::parse(rt.alloc(), CASE_4)?;
    let key = key(&case)?;
    let mut buffer = sealed(rt.alloc(), &case, &[0; 4])?;
    for bit in 8 * 4..8 * 80 {
        flip(&mut buffer, bit);
        is_refused_within(&rt, (rt.alloc(), &key, &case), &case.aad, &buffer, 4)?;
        flip(&mut buffer, bit);
    }
    let mut aad = case.aad.clone()?;
    for bit in 0..8 * 20 {
        flip(&mut aad, bit);
        is_refused_within(&rt, (rt.alloc(), &key, &case), &aad, &buffer, 4)?;
        flip(&mut aad, bit);
    }
    Ok(())
}

/// The buffer of 80 bytes, cut: shorter than a tag, shorter than the first four bytes and a tag, and with a wrong tag.
#[test]
fn each_cut_buffer_is_refused_within(rt: HostRuntime) -> Result<(), Fail> {
    let case = Case::parse(rt.alloc(), CASE_4)?;
    let key = key(&case)?;
    let mut buffer = sealed(rt.alloc(), &case, &[0; 4])?;
    for len in (0..80).rev() {
        buffer.truncate(len);
        is_refused_within(&rt, (rt.alloc(), &key, &case), &case.aad, &buffer, 4)?;
    }
    Ok(())
}

/// Starts at the tag, which is then a wrong one, and after its first byte.
#[test]
fn each_start_after_the_ciphertext_is_refused_within(rt: HostRuntime) -> Result<(), Fail> {
    let case = Case::parse(rt.alloc(), CASE_4)?;
    let key = key(&case)?;
    let buffer = sealed(rt.alloc(), &case, &[0; 4])?;
    for start in [64, 65, 80, usize::MAX] {
        is_refused_within(&rt, (rt.alloc(), &key, &case), &case.aad, &buffer, start)?;
    }
    Ok(())
}

/// A buffer shorter than a tag, and a start after the first byte of the tag.
#[test]
fn gcm_spec_case_1_is_refused_within(rt: HostRuntime) -> Result<(), Fail> {
    let case = Case::parse(rt.alloc(), CASE_1)?;
    let key = key(&case)?;
    is_refused_within(&rt, (rt.alloc(), &key, &case), &[], &[0; 15], 0)?;
    is_refused_within(&rt, (rt.alloc(), &key, &case), &[], &case.tag, 1)
}

#[test]
fn gcm_spec_case_2_with_a_false_tag(rt: HostRuntime) -> Result<(), Fail> {
    let case = Case::parse(rt.alloc(), CASE_2)?;
    let key = key(&case)?;
    let mut in_out = case.ciphertext.clone()?;
    let tag = false_tag(case.tag);
    let opened = key.open_in_place_separate_tag(nonce(&case), aad(&case), tag, &mut in_out, 0..);
    holds(&rt, opened.is_err(), "a refusal");
    same(&rt, &in_out, &case.ciphertext, "the buffer");
    Ok(())
}

/// The first and the last byte of the AAD and of the ciphertext, by their places where the one comes after the other, and
/// other bytes in place of them.
const REPLACED: [(usize, u8, u8); 4] = [
    (0, 0xfe, 0xff),
    (19, 0xd2, 0xd3),
    (20, 0x42, 0x43),
    (79, 0x91, 0x90),
];

/// Asserts that a byte is `old`, and replaces it.
fn replace(rt: &impl Abort, bytes: &mut [u8], (place, old, new): (usize, u8, u8)) {
    if let Some(byte) = bytes.get_mut(place) {
        equal(rt, *byte, old, "the byte that is replaced");
        *byte = new;
    }
}

/// Asserts that opening `bytes` after 20 bytes of AAD fails and the buffer is unchanged.
fn is_refused_in_place(
    rt: &impl Abort,
    alloc: Global,
    (key, case): (&LessSafeKey, &Case),
    bytes: &[u8],
) -> Result<(), Fail> {
    let (aad, before) = bytes.split_at(bytes.len().min(20));
    let mut in_out = before.to_vec(alloc)?;
    let opened = key.open_in_place(nonce(case), Aad::from(aad), &mut in_out);
    holds(rt, opened.is_err(), "a refusal");
    same(rt, &in_out, before, "the buffer");
    Ok(())
}

#[test]
fn gcm_spec_case_4_with_a_byte_replaced(rt: HostRuntime) -> Result<(), Fail> {
    let case = Case::parse(rt.alloc(), CASE_4)?;
    let key = key(&case)?;
    for replaced in REPLACED {
        let mut bytes = sealed(rt.alloc(), &case, &case.aad)?;
        replace(&rt, &mut bytes, replaced);
        is_refused_in_place(&rt, rt.alloc(), (&key, &case), &bytes)?;
    }
    Ok(())
}

/// 20 bytes of AAD, 60 of ciphertext and 16 of tag.
#[test]
fn each_flipped_bit_is_refused(rt: HostRuntime) -> Result<(), Fail> {
    let case = Case::parse(rt.alloc(), CASE_4)?;
    let key = key(&case)?;
    let mut bytes = sealed(rt.alloc(), &case, &case.aad)?;
    for bit in 0..8 * 96 {
        flip(&mut bytes, bit);
        is_refused_in_place(&rt, rt.alloc(), (&key, &case), &bytes)?;
        flip(&mut bytes, bit);
    }
    Ok(())
}
