//! The vectors of the specification by each call of an expanded key, on planes of either width.

use crate::tests::checks::{NONCE, PLAINTEXT, VECTORS, same};
use aead_ciphers::aead::{Aad, Tag};
use aead_ciphers_wide::aes::Width;
use std::process::Abort;
use std::test::Fail;
use xaes::{ExpandedKey, XNonce, Xaes256Gcm};

/// The nonce of the vectors.
fn nonce() -> XNonce {
    XNonce::assume_unique_for_key(NONCE)
}

/// Each call that seals makes these bytes, and each that opens takes them.
fn seals_and_opens(
    rt: &impl Abort,
    bytes: &[u8; 32],
    width: Width,
    aad: &[u8],
    wanted: &[u8; 28],
) -> Result<(), Fail> {
    let mut key = ExpandedKey::zeros();
    key.expand(bytes, width);
    let (ciphertext, tag) = wanted.split_at(PLAINTEXT.len());
    let mut in_out = PLAINTEXT;
    let made = key.seal(nonce(), Aad::from(aad), &mut in_out)?;
    same(rt, &in_out, ciphertext, "in place");
    same(rt, made.as_ref(), tag, "its tag");
    let mut out = [0; PLAINTEXT.len()];
    let made = key.seal_to(nonce(), Aad::from(aad), &PLAINTEXT, &mut out)?;
    same(rt, &out, ciphertext, "to another buffer");
    same(rt, made.as_ref(), tag, "its tag");
    let tag = Tag::try_from(tag)?;
    key.open_to(nonce(), Aad::from(aad), tag, ciphertext, &mut out)?;
    same(rt, &out, &PLAINTEXT, "opened to another buffer");
    key.open(nonce(), Aad::from(aad), tag, &mut in_out, 0..)?;
    same(rt, &in_out, &PLAINTEXT, "opened in place");
    let mut attached = *wanted;
    key.open_within_to_front(nonce(), Aad::from(aad), &mut attached, 0..)?;
    same(
        rt,
        &attached[..PLAINTEXT.len()],
        &PLAINTEXT,
        "opened with the tag attached",
    );
    let made = Xaes256Gcm::from_expanded(key);
    let tag = made.seal_in_place_separate_tag(nonce(), Aad::from(aad), &mut in_out)?;
    same(
        rt,
        tag.as_ref(),
        &wanted[PLAINTEXT.len()..],
        "by a key made from it",
    );
    Ok(())
}

#[test]
fn vectors_of_expanded_keys(rt: HostRuntime) -> Result<(), Fail> {
    for (byte, aad, wanted) in &VECTORS {
        for width in [Width::Bits128, Width::Bits256] {
            seals_and_opens(&rt, &[*byte; 32], width, aad, wanted)?;
        }
    }
    Ok(())
}
