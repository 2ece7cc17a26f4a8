//! Tests of `aead::quic`: masks of RFC 9001 and FIPS 197.

use crate::tests::checks::{holds, same};
use aead_ciphers::aead::quic::{AES_128, AES_256, Algorithm, CHACHA20};
use aead_ciphers_wide::aead::quic::HeaderProtectionKey;
use aead_vectors::{fips_197, rfc_9001};
use std::process::Abort;
use std::test::Fail;

/// Asserts that the key yields the mask, and refuses a sample of another length.
fn masks_so(
    rt: &impl Abort,
    algorithm: &Algorithm,
    key: &[u8],
    sample: &[u8],
    wanted: &[u8],
) -> Result<(), Fail> {
    let key = HeaderProtectionKey::new(algorithm, key)?;
    same(rt, &key.new_mask(sample)?, wanted, "the mask");
    holds(rt, key.new_mask(wanted).is_err(), "a sample's length");
    Ok(())
}

#[test]
fn masks(rt: HostRuntime) -> Result<(), Fail> {
    masks_so(
        &rt,
        &AES_128,
        &rfc_9001::A_2_KEY,
        &rfc_9001::A_2_SAMPLE,
        &rfc_9001::A_2_MASK,
    )?;
    masks_so(
        &rt,
        &CHACHA20,
        &rfc_9001::A_5_KEY,
        &rfc_9001::A_5_SAMPLE,
        &rfc_9001::A_5_MASK,
    )?;
    for (algorithm, line) in [AES_128, AES_256].iter().zip(fips_197::CASES) {
        let case = fips_197::Case::parse(rt.alloc(), line)?;
        masks_so(
            &rt,
            algorithm,
            &case.key,
            &case.plaintext,
            &case.ciphertext[..5],
        )?;
    }
    Ok(())
}
