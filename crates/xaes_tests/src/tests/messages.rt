//! The vectors of the specification by each call of a key, and messages that are refused.

use crate::tests::checks::{NONCE, PLAINTEXT, VECTORS, equal, same};
use aead_ciphers::aead::{Aad, Tag};
use std::process::Abort;
use std::test::Fail;
use test_support::messages::{counting, lens};
use xaes::{XAES_NONCE_LEN, XNonce, Xaes256Gcm};

/// The nonce of the vectors.
fn nonce() -> XNonce {
    XNonce::assume_unique_for_key(NONCE)
}

/// Each call seals the plaintext of the vectors to these bytes.
fn seals(
    rt: &(impl Abort + AllocGlobal),
    key: &Xaes256Gcm,
    aad: &[u8],
    wanted: &[u8],
) -> Result<(), Fail> {
    let (ciphertext, tag) = wanted.split_at_checked(PLAINTEXT.len()).ok_or("short")?;
    let mut in_out = PLAINTEXT;
    let made = key.seal_in_place_separate_tag(nonce(), Aad::from(aad), &mut in_out)?;
    same(rt, &in_out, ciphertext, "in place");
    same(rt, made.as_ref(), tag, "its tag");
    let mut out = [0; PLAINTEXT.len()];
    let made = key.seal_to(nonce(), Aad::from(aad), &PLAINTEXT, &mut out)?;
    same(rt, &out, ciphertext, "to another buffer");
    same(rt, made.as_ref(), tag, "its tag");
    let mut appended = PLAINTEXT.to_vec(rt.alloc())?;
    key.seal_in_place_append_tag(nonce(), Aad::from(aad), &mut appended)?;
    same(rt, &appended, wanted, "with the tag appended");
    Ok(())
}

/// Each call opens these bytes to the plaintext of the vectors.
fn opens(rt: &impl Abort, key: &Xaes256Gcm, aad: &[u8], sealed: &[u8; 28]) -> Result<(), Fail> {
    let (ciphertext, tag) = sealed.split_at_checked(PLAINTEXT.len()).ok_or("short")?;
    let tag = Tag::try_from(tag)?;
    let mut out = [0; PLAINTEXT.len()];
    key.open_to(nonce(), Aad::from(aad), tag, ciphertext, &mut out)?;
    same(rt, &out, &PLAINTEXT, "to another buffer");
    out.copy_from_slice(ciphertext);
    key.open_in_place_separate_tag_to_front(nonce(), Aad::from(aad), tag, &mut out, 0..)?;
    same(rt, &out, &PLAINTEXT, "with a separate tag");
    let mut in_out = *sealed;
    let len = key.open_in_place_to_front(nonce(), Aad::from(aad), &mut in_out)?;
    same(rt, &in_out[..len], &PLAINTEXT, "in place");
    Ok(())
}

#[test]
fn vectors(rt: HostRuntime) -> Result<(), Fail> {
    for (byte, aad, wanted) in &VECTORS {
        let key = Xaes256Gcm::new(&[*byte; 32]);
        seals(&rt, &key, aad, wanted)?;
        opens(&rt, &key.clone()?, aad, wanted)?;
    }
    Ok(())
}

/// A message of this length opens at an offset to what it was.
fn opens_again(rt: &(impl Abort + AllocGlobal), key: &Xaes256Gcm, len: usize) -> Result<(), Fail> {
    let message = counting(rt.alloc(), len)?;
    let mut sealed = message.clone()?;
    key.seal_in_place_append_tag(nonce(), Aad::from(NONCE.as_slice()), &mut sealed)?;
    let mut packet = NONCE.to_vec(rt.alloc())?;
    packet.extend_from_slice(&sealed)?;
    let sent = XNonce::try_assume_unique_for_key(packet.get(..XAES_NONCE_LEN).ok_or("short")?)?;
    let aad = Aad::from(NONCE.as_slice());
    let opened = key.open_within_to_front(sent, aad, &mut packet, XAES_NONCE_LEN..)?;
    packet.truncate(opened);
    same(rt, &packet, &message, "opened");
    Ok(())
}

#[test]
fn opens_what_it_sealed(rt: HostRuntime) -> Result<(), Fail> {
    let key = Xaes256Gcm::new(&[3; 32]);
    for len in &lens(rt.alloc())? {
        opens_again(&rt, &key, *len)?;
    }
    Ok(())
}

/// The vector is refused under this nonce.
fn refuses(rt: &impl Abort, changed: [u8; 24]) {
    let (byte, aad, sealed) = &VECTORS[1];
    let mut in_out = *sealed;
    let opened = Xaes256Gcm::new(&[*byte; 32]).open_in_place_to_front(
        XNonce::assume_unique_for_key(changed),
        Aad::from(*aad),
        &mut in_out,
    );
    equal(rt, opened.is_err(), true, "refused");
    same(rt, &in_out, sealed, "unchanged");
}

#[test]
fn a_changed_byte_of_the_nonce(rt: HostRuntime) {
    for place in 0..XAES_NONCE_LEN {
        let mut changed = NONCE;
        changed[place] ^= 1;
        refuses(&rt, changed);
    }
}

/// For the first 12 bytes of the nonce of the vectors: the byte of the key, the derived key, which the specification has, and
/// iterations 3 and 4 of the derivation, by python's `cryptography`.
const DERIVED: [(u8, [u8; 32], [u8; 32]); 2] = [
    (
        1,
        *b"\xc8\x61\x2c\x9e\xd5\x3f\xe4\x3e\x8e\x00\x5b\x82\x8a\x16\x31\xa0\
            \xbb\xcb\x6a\xb2\xf4\x65\x14\xec\x4f\x43\x9f\xcf\xd0\xfa\x96\x9b",
        *b"\x10\xd1\x16\x57\x0a\x25\x9d\x28\x43\xae\x5b\xed\xf2\x7c\x30\x03\
            \x1b\x7e\xc9\xa8\xc5\x03\x96\x39\xb8\xaf\xc1\x0a\xf0\x72\x2d\x9a",
    ),
    (
        3,
        *b"\xe9\xc6\x21\xd4\xcd\xd9\xb1\x1b\x00\xa6\x42\x7a\xd7\xe5\x59\xae\
            \xed\xd6\x6b\x38\x57\x64\x66\x77\x74\x8f\x8c\xa7\x96\xcb\x3f\xd8",
        *b"\x6e\xee\xd5\x65\xf0\xc9\xd2\x33\x2b\x86\xa5\x14\x1d\xa7\xa2\x45\
            \x88\x28\x26\x97\x31\xbf\x51\xd3\xc5\x39\xd6\xfe\x28\xf7\xfd\xda",
    ),
];

#[test]
fn derived_keys(rt: HostRuntime) {
    for (byte, wanted, others) in &DERIVED {
        let key = Xaes256Gcm::new(&[*byte; 32]);
        same(&rt, &key.derived_key(b"ABCDEFGHIJKL"), wanted, "the key");
        let blocks = key.derived_blocks(b"ABCDEFGHIJKL", 3, 4);
        same(&rt, &blocks, others, "iterations 3 and 4");
    }
}

#[test]
fn shows_no_byte_of_the_key(rt: HostRuntime) -> Result<(), Fail> {
    let key = Xaes256Gcm::new(&[3; 32]);
    let text = format!(in rt.alloc(); "{key:?}")?;
    equal(&rt, text.as_str(), "Xaes256Gcm { .. }", "the text");
    let text = format!(in rt.alloc(); "{key:#?}")?;
    equal(
        &rt,
        text.as_str(),
        "Xaes256Gcm { .. }",
        "the text in the alternate form",
    );
    Ok(())
}
