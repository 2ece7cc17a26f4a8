//! Tests of `aead::quic`: masks of RFC 9001, FIPS 197 and RFC 8439, and lengths that are rejected.

ghost use Rattle.std.specs.Prelude.{◌≡◌};
ghost use Rattle.aead_ciphers_base.specs.Mask.{chacha_mask};
ghost use Rattle.aead_vectors.specs.declared.rfc_9001.TheConstants.{A_5_KEY, A_5_MASK, A_5_SAMPLE};

use crate::tests::callers::same_quic_algorithm;
use crate::tests::checks::{equal, holds, prints, same};
use crate::tests::masks::{MASKS, Mask};
use aead_ciphers::aead::quic::{AES_128, AES_256, Algorithm, CHACHA20, HeaderProtectionKey};
use aead_ciphers_base::chacha::{self, Overlapping};
use aead_ciphers_base::values::Nonce;
use aead_vectors::rfc_9001::A_5_KEY;
use std::process::Abort;
use std::test::Fail;

// The definition yields the mask of appendix A.5.
fn rfc_9001_a_5_mask()
    ensures { chacha_mask A_5_KEY A_5_SAMPLE ≡ A_5_MASK }
{}

/// Asserts that the key yields the mask.
fn masks_so(rt: &impl Abort, row: &Mask) -> Result<(), Fail> {
    let mask = HeaderProtectionKey::new(row.algorithm(), &row.key)?.new_mask(&row.sample)?;
    same(rt, &mask, &row.mask, row.name);
    Ok(())
}

#[test]
fn masks(rt: HostRuntime) -> Result<(), Fail> {
    for line in MASKS {
        masks_so(&rt, &Mask::parse(rt.alloc(), line)?)?;
    }
    Ok(())
}

// The first four bytes of a sample are a block counter, and the others are a nonce (RFC 9001 section 5.4.4).
#[test]
fn mask_at_the_last_counter(rt: HostRuntime) -> Result<(), Fail> {
    let nonce = Nonce::assume_unique_for_key([1, 2, 3, 4, 5, 6, 7, 8, 9, 10, 11, 12]);
    let sample = [255, 255, 255, 255, 1, 2, 3, 4, 5, 6, 7, 8, 9, 10, 11, 12];
    let mut bytes = [0; 5];
    let counter = chacha::Counter::from_nonce_and_ctr(nonce, u32::MAX);
    chacha::Key::new(A_5_KEY).encrypt(counter, Overlapping::from(bytes.as_mut_slice()));
    let mask = HeaderProtectionKey::new(&CHACHA20, &A_5_KEY)?.new_mask(&sample)?;
    same(&rt, &mask, &bytes, "the mask");
    Ok(())
}

/// Asserts that keys and samples that are empty, or one byte too short or too long, are rejected.
fn refuses_other_lengths(
    rt: &impl Abort,
    algorithm: &Algorithm,
    zeros: &[u8; 33],
) -> Result<(), Fail> {
    let len = algorithm.key_len();
    assert!(rt; 0 < len && len < 33);
    for refused in [0, len - 1, len + 1] {
        let key = HeaderProtectionKey::new(algorithm, &zeros[..refused]);
        holds(rt, key.is_err(), "a key's length");
    }
    let key = HeaderProtectionKey::new(algorithm, &zeros[..len])?;
    holds(
        rt,
        same_quic_algorithm(key.algorithm(), algorithm),
        "the algorithm",
    );
    equal(rt, algorithm.sample_len(), 16, "a sample's length");
    for len in [0, 15, 16, 17] {
        let mask = key.new_mask(&zeros[..len]);
        equal(rt, mask.is_ok(), len == 16, "a sample's length");
    }
    Ok(())
}

#[test]
fn other_lengths_are_refused(rt: HostRuntime) -> Result<(), Fail> {
    for algorithm in [AES_128, AES_256, CHACHA20] {
        refuses_other_lengths(&rt, &algorithm, &[0; 33])?;
    }
    Ok(())
}

#[test]
fn debug_texts(rt: HostRuntime) -> Result<(), Fail> {
    prints(&rt, &AES_128, "AES_128")?;
    prints(&rt, &AES_256, "AES_256")?;
    prints(&rt, &CHACHA20, "CHACHA20")?;
    Ok(())
}
