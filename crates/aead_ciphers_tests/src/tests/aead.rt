//! Tests of `aead`: keys to which the caller passes a nonce.

use crate::tests::cases::{aad, key, nonce, opened_at_4, sealed};
use crate::tests::checks::{holds, lends, prints, same};
use aead_ciphers::aead::{
    AES_128_GCM, AES_256_GCM, Aad, Algorithm, LessSafeKey, Nonce, UnboundKey,
};
use aead_ciphers::laws;
use aead_vectors::gcm_spec::{CASE_4, CASES, Case};
use std::process::Abort;
use std::test::Fail;

#[test]
fn debug_texts(rt: HostRuntime) -> Result<(), Fail> {
    prints(&rt, &AES_128_GCM, "AES_128_GCM")?;
    prints(&rt, &AES_256_GCM, "AES_256_GCM")?;
    prints(&rt, &Aad::from([1, 2].as_slice()), "Aad([1, 2])")?;
    let unbound = UnboundKey::new(&AES_128_GCM, &[0; 16])?;
    prints(&rt, &unbound, "UnboundKey { algorithm: AES_128_GCM }")?;
    let key = LessSafeKey::new(unbound);
    prints(&rt, &key, "LessSafeKey { algorithm: AES_128_GCM }")?;
    Ok(())
}

/// Asserts that zeros of this length are no key.
fn is_no_key(rt: &impl Abort, algorithm: &'static Algorithm, len: usize) -> Result<(), Fail> {
    let key = UnboundKey::new(algorithm, [0; 33].get(..len).ok_or("a key's length")?);
    holds(rt, key.is_err(), "a key's length");
    Ok(())
}

#[test]
fn keys_of_other_lengths_are_refused(rt: HostRuntime) -> Result<(), Fail> {
    for len in [0, 15, 17, 32] {
        is_no_key(&rt, &AES_128_GCM, len)?;
    }
    for len in [0, 16, 31, 33] {
        is_no_key(&rt, &AES_256_GCM, len)?;
    }
    Ok(())
}

/// Asserts that a case is sealed with a separate tag, and opened.
fn seals(rt: &impl Abort, key: &LessSafeKey, case: &Case) -> Result<(), Fail> {
    let mut in_out = case.message.clone()?;
    let tag = key.seal_in_place_separate_tag(nonce(case), aad(case), &mut in_out)?;
    same(rt, &in_out, &case.ciphertext, case.name);
    same(rt, tag.as_ref(), &case.tag, case.name);
    let opened = key.open_in_place_separate_tag(nonce(case), aad(case), tag, &mut in_out, 0..);
    lends(rt, opened, &case.message, case.name);
    Ok(())
}

#[test]
fn gcm_spec_cases(rt: HostRuntime) -> Result<(), Fail> {
    for line in CASES {
        let case = Case::parse(rt.alloc(), line)?;
        seals(&rt, &key(&case)?, &case)?;
    }
    Ok(())
}

/// Asserts that a case is sealed with the tag appended.
fn appends(
    rt: &impl Abort,
    key: &LessSafeKey,
    case: &Case,
    in_out: &mut Vec<u8>,
    sealed: &[u8],
) -> Result<(), Fail> {
    key.seal_in_place_append_tag(nonce(case), aad(case), in_out)?;
    same(rt, in_out, sealed, case.name);
    Ok(())
}

/// Asserts that a case is opened with its tag after the ciphertext.
fn opens(rt: &impl Abort, key: &LessSafeKey, case: &Case, in_out: &mut [u8]) {
    let opened = key.open_in_place(nonce(case), aad(case), in_out);
    lends(rt, opened, &case.message, case.name);
}

#[test]
fn gcm_spec_cases_appended(rt: HostRuntime) -> Result<(), Fail> {
    for line in CASES {
        let case = Case::parse(rt.alloc(), line)?;
        let mut in_out = case.message.clone()?;
        let key = key(&case)?;
        appends(
            &rt,
            &key,
            &case,
            &mut in_out,
            &sealed(rt.alloc(), &case, &[])?,
        )?;
        opens(&rt, &key, &case, &mut in_out);
    }
    Ok(())
}

/// Asserts that opening a case at offset 4 yields its message.
fn opens_at_4(rt: &impl Abort, case: &Case, in_out: &mut [u8]) -> Result<(), Fail> {
    let key = key(case)?;
    let opened = key.open_within(nonce(case), aad(case), in_out, 4..);
    lends(rt, opened, &case.message, "the plaintext");
    Ok(())
}

#[test]
fn gcm_spec_case_4_within(rt: HostRuntime) -> Result<(), Fail> {
    let case = Case::parse(rt.alloc(), CASE_4)?;
    let mut in_out = sealed(rt.alloc(), &case, &[0; 4])?;
    opens_at_4(&rt, &case, &mut in_out)?;
    same(&rt, &in_out, &opened_at_4(rt.alloc(), &case)?, "the buffer");
    Ok(())
}

/// Asserts that a message of two bytes is sealed, and opened again, with a nonce of zeros.
fn goes_round(
    rt: &impl Abort,
    key: &LessSafeKey,
    aad: &[u8],
    message: [u8; 2],
    wanted: [u8; 2],
) -> Result<(), Fail> {
    let mut in_out = message;
    let nonce = Nonce::assume_unique_for_key([0; 12]);
    let tag = key.seal_in_place_separate_tag(nonce, Aad::from(aad), &mut in_out)?;
    same(rt, &in_out, &wanted, "the ciphertext");
    let nonce = Nonce::assume_unique_for_key([0; 12]);
    let opened = key.open_in_place_separate_tag(nonce, Aad::from(aad), tag, &mut in_out, 0..);
    lends(rt, opened, &message, "the message");
    Ok(())
}

// The law, and its calls: the ciphertext is the XOR of the message and the first bytes of test case 2's, whose message is zeros.
#[test]
fn round_trip_of_one(rt: HostRuntime) -> Result<(), Fail> {
    let (aad, message) = ([1], [2, 3]);
    laws::round_trip(
        &[0; 16],
        &[[0; 12]],
        &[aad.to_vec(rt.alloc())?],
        &[message.to_vec(rt.alloc())?],
    );
    let key = LessSafeKey::new(UnboundKey::new(&AES_128_GCM, &[0; 16])?);
    goes_round(&rt, &key, &aad, message, [0x03 ^ 2, 0x88 ^ 3])
}
