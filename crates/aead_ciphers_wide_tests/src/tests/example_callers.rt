//! Tests of `examples` with a test case of the GCM specification.

ghost use Rattle.aead_ciphers_wide.specs.ExpandedKey.{IsExpanded};

use crate::tests::checks::same;
use crate::tests::examples::pieces;
use aead_ciphers::aead::{Aad, Nonce};
use aead_ciphers::aes_gcm::GcmKey;
use aead_ciphers_base::aes::{KeyBytes, Work};
use aead_ciphers_wide::aes_gcm::ExpandedKey;
use aead_vectors::gcm_spec::{CASE_4, Case};
use std::process::Abort;
use std::test::Fail;

/// Asserts that a case is sealed in pieces of 1 to 17 bytes.
fn seals_in_pieces(rt: &impl Abort, key: &ExpandedKey, case: &Case) -> Result<(), Fail>
    requires { IsExpanded key.now }
{
    for piece_len in 1..18 {
        let mut in_out = case.message.clone()?;
        let nonce = Nonce::assume_unique_for_key(case.nonce);
        let aad = Aad::from(case.aad.as_slice());
        let tag = pieces::seal_in_pieces(key, nonce, aad, &mut in_out, piece_len)?;
        same(rt, &in_out, &case.ciphertext, case.name);
        same(rt, tag.as_ref(), &case.tag, case.name);
    }
    Ok(())
}

#[test]
fn gcm_spec_case_4_in_pieces(rt: HostRuntime) -> Result<(), Fail> {
    let case = Case::parse(rt.alloc(), CASE_4)?;
    let bytes = case
        .key
        .as_slice()
        .as_array::<16>()
        .ok_or("a key's length")?;
    let mut key = ExpandedKey::zeros();
    key.expand(KeyBytes::AES_128(bytes), &mut Work::new());
    seals_in_pieces(&rt, &key, &case)
}
