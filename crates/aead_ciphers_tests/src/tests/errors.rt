//! Tests of the conversion of errors to `anyhow::Error` by `?`.

use crate::tests::checks::{displays, holds};
use aead_ciphers::aead::{AES_128_GCM, UnboundKey};
use std::test::Fail;

/// Creates a key of AES-128-GCM.
fn unbound(bytes: &[u8]) -> anyhow::Result<UnboundKey> {
    Ok(UnboundKey::new(&AES_128_GCM, bytes)?)
}

#[test]
fn into_anyhow(rt: HostRuntime) -> Result<(), Fail> {
    holds(&rt, unbound(&[0; 16]).is_ok(), "a key of 16 bytes");
    match unbound(&[0; 15]) {
        Ok(_) => holds(&rt, false, "a key of 15 bytes"),
        Err(error) => displays(&rt, &error, "unspecified error")?,
    }
    Ok(())
}
