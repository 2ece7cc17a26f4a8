//! Tests of the generic keys of `aead_ciphers::aead` on the test cases of the GCM specification, over each expanded key: that of
//! `aead_ciphers`, that of `aead_ciphers_wide` with planes of both widths, and one of this crate.

use crate::tests::cases::{aad, key, nonce, opening, sealed, sealing, wider_key};
use crate::tests::checks::{equal, holds, same};
use crate::tests::plain_key::PlainKey;
use aead_ciphers::aead::generic::LessSafeKey;
use aead_ciphers::aead::{Tag, Unspecified};
use aead_ciphers::aes_gcm::{self, GcmKey};
use aead_ciphers_wide::aes_gcm::ExpandedKey;
use aead_vectors::gcm_spec::{CASE_1, CASE_2, CASE_13, CASE_14, CASES, Case};
use std::alloc::Global;
use std::process::Abort;
use std::test::Fail;

/// Asserts that a case is sealed with a separate tag, that another tag is refused, and that its own is accepted.
fn seals_apart<K: GcmKey>(rt: &impl Abort, key: &LessSafeKey<K>, case: &Case) -> Result<(), Fail> {
    let mut in_out = case.message.clone()?;
    let tag = key.seal_in_place_separate_tag(nonce(case), aad(case), &mut in_out)?;
    same(rt, &in_out, &case.ciphertext, case.name);
    same(rt, tag.as_ref(), &case.tag, case.name);
    let zeros = Tag::from([0; 16]);
    let opened = key.open_in_place_separate_tag_to_front(
        nonce(case),
        aad(case),
        zeros,
        &mut in_out,
        0..,
    );
    holds(rt, opened.is_err(), "a false tag");
    same(rt, &in_out, &case.ciphertext, case.name);
    key.open_in_place_separate_tag_to_front(nonce(case), aad(case), tag, &mut in_out, 0..)?;
    same(rt, &in_out, &case.message, case.name);
    Ok(())
}

/// Asserts that the tag is appended, and that the message is opened from the start and after four bytes.
fn appends<K: GcmKey>(
    rt: &impl Abort,
    alloc: Global,
    key: &LessSafeKey<K>,
    case: &Case,
) -> Result<(), Fail> {
    let mut in_out = case.message.clone()?;
    key.seal_in_place_append_tag(nonce(case), aad(case), &mut in_out)?;
    same(rt, &in_out, &sealed(alloc, case, &[])?, case.name);
    let opened = key.open_in_place_to_front(nonce(case), aad(case), &mut in_out);
    equal(rt, opened, Ok(case.message.len()), "the message's length");
    let mut in_out = sealed(alloc, case, &[7; 4])?;
    let opened = key.open_within_to_front(nonce(case), aad(case), &mut in_out, 4..);
    equal(
        rt,
        opened,
        Ok(case.message.len()),
        "its length after four bytes",
    );
    holds(rt, in_out.starts_with(&case.message), case.name);
    Ok(())
}

/// Whether a call lends this plaintext.
fn is_lent(opened: Result<&mut [u8], Unspecified>, wanted: &[u8]) -> bool {
    match opened {
        Ok(plaintext) => &*plaintext == wanted,
        Err(Unspecified) => false,
    }
}

/// Asserts that each call that lends the plaintext lends the message.
fn lends<K: GcmKey>(
    rt: &impl Abort,
    alloc: Global,
    key: &LessSafeKey<K>,
    case: &Case,
) -> Result<(), Fail> {
    let (mut in_out, tag) = (case.ciphertext.clone()?, Tag::from(case.tag));
    let opened = key.open_in_place_separate_tag(nonce(case), aad(case), tag, &mut in_out, 0..);
    holds(rt, is_lent(opened, &case.message), "a separate tag");
    let mut in_out = sealed(alloc, case, &[7; 4])?;
    let opened = key.open_within(nonce(case), aad(case), &mut in_out, 4..);
    holds(rt, is_lent(opened, &case.message), "after four bytes");
    let mut in_out = sealed(alloc, case, &[])?;
    let opened = key.open_in_place(nonce(case), aad(case), &mut in_out);
    holds(rt, is_lent(opened, &case.message), "the whole");
    Ok(())
}

/// Asserts that a case is opened to another buffer, which a false tag leaves.
fn opens_to<K: GcmKey>(
    rt: &impl Abort,
    alloc: Global,
    key: &LessSafeKey<K>,
    case: &Case,
) -> Result<(), Fail> {
    let sevens = vec![in alloc; 7; case.ciphertext.len()]?;
    let mut out = sevens.clone()?;
    let zeros = Tag::from([0; 16]);
    let opened = key.open_to(nonce(case), aad(case), zeros, &case.ciphertext, &mut out);
    holds(rt, opened.is_err(), "a false tag");
    same(rt, &out, &sevens, "the other buffer");
    let tag = Tag::from(case.tag);
    key.open_to(nonce(case), aad(case), tag, &case.ciphertext, &mut out)?;
    same(rt, &out, &case.message, case.name);
    Ok(())
}

/// Asserts that a case is sealed and opened as a packet.
fn seals_packet<K: GcmKey>(rt: &impl Abort, key: &LessSafeKey<K>, case: &Case) -> Result<(), Fail> {
    let header_len = case.aad.len();
    let mut packet = case.aad.clone()?;
    packet.extend_from_slice(&case.message)?;
    packet.extend_from_slice(&[0; 16])?;
    key.seal_packet_in_place(nonce(case), &mut packet, header_len)?;
    holds(rt, packet.starts_with(&case.aad), "the header");
    holds(rt, packet.ends_with(&case.tag), "the tag");
    let opened = key.open_packet_in_place_after_header(nonce(case), &mut packet, header_len);
    equal(rt, opened, Ok(case.message.len()), "the message's length");
    let message = packet.get(header_len..header_len.saturating_add(case.message.len()));
    same(rt, message.ok_or("a message")?, &case.message, case.name);
    Ok(())
}

/// Makes each call of a key, or of its clone.
fn seals_and_opens<K: GcmKey>(
    rt: &impl Abort,
    alloc: Global,
    key: &LessSafeKey<K>,
    case: &Case,
) -> Result<(), Fail> {
    seals_apart(rt, key, case)?;
    appends(rt, alloc, key, case)?;
    lends(rt, alloc, key, case)?;
    opens_to(rt, alloc, key, case)?;
    seals_packet(rt, &key.clone()?, case)
}

#[test]
fn gcm_spec_cases(rt: HostRuntime) -> Result<(), Fail> {
    for line in CASES {
        let case = Case::parse(rt.alloc(), line)?;
        seals_and_opens(&rt, rt.alloc(), &key::<aes_gcm::ExpandedKey>(&case)?, &case)?;
        seals_and_opens(&rt, rt.alloc(), &key::<ExpandedKey>(&case)?, &case)?;
        seals_and_opens(&rt, rt.alloc(), &wider_key(&case)?, &case)?;
        seals_and_opens(&rt, rt.alloc(), &key::<PlainKey>(&case)?, &case)?;
    }
    Ok(())
}

/// Asserts that a sealing key with one nonce seals a case, and then nothing more.
fn seals_once<K: GcmKey>(rt: &impl Abort, alloc: Global, case: &Case) -> Result<(), Fail> {
    let mut in_out = case.message.clone()?;
    let mut key = sealing::<K>(case, 1)?;
    let tag = key.seal_in_place_separate_tag(aad(case), &mut in_out)?;
    same(rt, &in_out, &case.ciphertext, case.name);
    same(rt, tag.as_ref(), &case.tag, case.name);
    let more = key.seal_in_place_append_tag(aad(case), &mut in_out);
    holds(rt, more.is_err(), "the nonce is spent");
    same(rt, &in_out, &case.ciphertext, "the buffer stays");
    let mut in_out = case.message.clone()?;
    sealing::<K>(case, 1)?.seal_in_place_append_tag(aad(case), &mut in_out)?;
    same(rt, &in_out, &sealed(alloc, case, &[])?, case.name);
    Ok(())
}

/// Asserts that an opening key with one nonce opens a case, by each call.
fn opens_once<K: GcmKey>(rt: &impl Abort, alloc: Global, case: &Case) -> Result<(), Fail> {
    let mut key = opening::<K>(case, 1)?;
    let mut in_out = sealed(alloc, case, &[7; 4])?;
    let opened = key.open_within(aad(case), &mut in_out, 4..);
    holds(rt, is_lent(opened, &case.message), "after four bytes");
    let mut in_out = sealed(alloc, case, &[])?;
    let opened = key.open_in_place_to_front(aad(case), &mut in_out);
    holds(rt, opened.is_err(), "the nonce is spent");
    let mut key = opening::<K>(case, 1)?;
    let opened = key.open_in_place(aad(case), &mut in_out);
    holds(rt, is_lent(opened, &case.message), "the whole");
    Ok(())
}

/// Makes each call of the bound keys. The nonce of the case is zero.
fn once<K: GcmKey>(rt: &impl Abort, alloc: Global, case: &Case) -> Result<(), Fail> {
    seals_once::<K>(rt, alloc, case)?;
    opens_once::<K>(rt, alloc, case)
}

#[test]
fn gcm_spec_cases_by_bound_keys(rt: HostRuntime) -> Result<(), Fail> {
    for line in [CASE_1, CASE_2, CASE_13, CASE_14] {
        let case = Case::parse(rt.alloc(), line)?;
        once::<aes_gcm::ExpandedKey>(&rt, rt.alloc(), &case)?;
        once::<ExpandedKey>(&rt, rt.alloc(), &case)?;
        once::<PlainKey>(&rt, rt.alloc(), &case)?;
    }
    Ok(())
}
