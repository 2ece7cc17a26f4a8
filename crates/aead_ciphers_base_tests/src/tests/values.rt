//! Tests of `values`: lengths that are rejected, and the printed text of an AAD.

use crate::tests::checks::{equal, holds, same};
use aead_ciphers_base::values::{Aad, Nonce, Tag};
use std::process::Abort;
use std::test::Fail;

#[test]
fn nonces_have_twelve_bytes(rt: HostRuntime) -> Result<(), Fail> {
    for len in [0, 11, 13] {
        let nonce = Nonce::try_assume_unique_for_key(&[0; 13][..len]);
        holds(&rt, nonce.is_err(), "a nonce's length");
    }
    let nonce = Nonce::try_assume_unique_for_key(&[7; 12])?;
    same(&rt, nonce.as_ref(), &[7; 12], "the nonce");
    Ok(())
}

#[test]
fn tags_have_sixteen_bytes(rt: HostRuntime) -> Result<(), Fail> {
    for len in [0, 15, 17] {
        let tag = Tag::try_from(&[0; 17][..len]);
        holds(&rt, tag.is_err(), "a tag's length");
    }
    let tag = Tag::try_from([7; 16].as_slice())?;
    same(&rt, tag.as_ref(), &[7; 16], "the tag");
    Ok(())
}

/// Asserts that two AADs compare equal if and only if `are_equal`.
fn compares(rt: &impl Abort, a: Aad<'_>, b: Aad<'_>, are_equal: bool) {
    equal(rt, a == b, are_equal, "equal or not");
}

#[test]
fn aad_is_its_bytes(rt: HostRuntime) -> Result<(), Fail> {
    let aad = Aad::from([1, 2].as_slice());
    compares(&rt, aad, Aad::from([1, 2].as_slice()), true);
    compares(&rt, aad, Aad::from([1, 3].as_slice()), false);
    compares(&rt, aad, Aad::empty(), false);
    let text = format!(in rt.alloc(); "{aad:?}")?;
    equal(&rt, text.as_str(), "Aad([1, 2])", "the text");
    Ok(())
}
