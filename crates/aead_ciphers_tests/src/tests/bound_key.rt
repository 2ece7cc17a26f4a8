//! Tests of keys with a counter and with another nonce sequence.

use crate::tests::cases::{
    aad, key, opened_at_4, opening, opening_once, sealed, sealing, unbound_key,
};
use crate::tests::checks::{equal, holds, lends, prints, same};
use crate::tests::examples::one_nonce::OneNonce;
use aead_ciphers::aead::{
    AES_128_GCM, Aad, BoundKey, CounterSequence, Nonce, NonceSequence, OpeningKey, SealingKey,
    Unspecified,
};
use aead_vectors::gcm_spec::{CASE_1, CASE_4, CASE_13, Case};
use arrayvec::ArrayVec;
use std::process::Abort;
use std::test::Fail;

fn sealing_once(case: &Case) -> Result<SealingKey<OneNonce>, Fail> {
    Ok(SealingKey::new(unbound_key(case)?, OneNonce::new(case.nonce)))
}

#[test]
fn debug_texts(rt: HostRuntime) -> Result<(), Fail> {
    let case = Case::parse(rt.alloc(), CASE_1)?;
    let (sealing, opening) = (sealing_once(&case)?, opening_once(&case)?);
    equal(&rt, *sealing.algorithm(), AES_128_GCM, "the sealing key's");
    equal(&rt, *opening.algorithm(), AES_128_GCM, "the opening key's");
    prints(&rt, &sealing, "SealingKey { algorithm: AES_128_GCM }")?;
    prints(&rt, &opening, "OpeningKey { algorithm: AES_128_GCM }")?;
    Ok(())
}

/// Asserts that sealing an empty message yields this tag, or fails if there is none.
fn seals<N: NonceSequence>(
    rt: &impl Abort,
    key: &mut SealingKey<N>,
    aad: Aad<'_>,
    wanted: Option<&[u8]>,
) {
    match (key.seal_in_place_separate_tag(aad, &mut []), wanted) {
        (Ok(tag), Some(wanted)) => same(rt, tag.as_ref(), wanted, "the tag"),
        (Err(Unspecified), None) => {}
        _ => holds(rt, false, "sealed or refused"),
    }
}

/// Asserts that a key with two nonces seals twice, and then fails.
fn seals_twice(rt: &impl Abort, case: &Case) -> Result<(), Fail> {
    let nonce = Nonce::assume_unique_for_key([0, 0, 0, 0, 0, 0, 0, 0, 0, 0, 0, 1]);
    let tag = key(case)?.seal_in_place_separate_tag(nonce, Aad::empty(), &mut [])?;
    let mut sealing = sealing(case, 2)?;
    seals(rt, &mut sealing, Aad::empty(), Some(&case.tag));
    seals(rt, &mut sealing, Aad::empty(), Some(tag.as_ref()));
    seals(rt, &mut sealing, Aad::empty(), None);
    seals(rt, &mut sealing, Aad::empty(), None);
    Ok(())
}

#[test]
fn seals_while_there_are_nonces(rt: HostRuntime) -> Result<(), Fail> {
    for line in [CASE_1, CASE_13] {
        seals_twice(&rt, &Case::parse(rt.alloc(), line)?)?;
    }
    Ok(())
}

/// Opens an empty message, by the call that lends it or by the one that returns its length, and returns its length.
fn opened(
    key: &mut OpeningKey<CounterSequence>,
    lends: bool,
    in_out: &mut [u8],
) -> Result<usize, Unspecified> {
    if lends {
        Ok(key.open_in_place(Aad::empty(), in_out)?.len())
    } else {
        key.open_in_place_to_front(Aad::empty(), in_out)
    }
}

/// Asserts that a tag alone is opened, and that it fails under the second nonce, after an opening without a tag.
fn spends_a_nonce(
    rt: &impl Abort,
    case: &Case,
    lends: bool,
    in_out: &mut [u8],
) -> Result<(), Fail> {
    let found = opened(&mut opening(case, 2)?, lends, in_out);
    equal(rt, found, Ok(0), "no message");
    let mut opening = opening(case, 2)?;
    let found = opened(&mut opening, lends, &mut [0; 15]);
    holds(rt, found.is_err(), "no tag");
    let found = opened(&mut opening, lends, in_out);
    holds(rt, found.is_err(), "the second nonce");
    Ok(())
}

#[test]
fn a_refused_opening_spends_its_nonce(rt: HostRuntime) -> Result<(), Fail> {
    let case = Case::parse(rt.alloc(), CASE_1)?;
    let mut tag = case.tag;
    spends_a_nonce(&rt, &case, false, &mut tag)?;
    spends_a_nonce(&rt, &case, true, &mut tag)?;
    same(&rt, &tag, &case.tag, "the tag stays");
    Ok(())
}

#[test]
fn no_room_spends_no_nonce(rt: HostRuntime) -> Result<(), Fail> {
    let case = Case::parse(rt.alloc(), CASE_1)?;
    let mut sealing = sealing(&case, 1)?;
    let mut short = ArrayVec::<u8, 15>::new();
    let sealed = sealing.seal_in_place_append_tag(Aad::empty(), &mut short);
    holds(&rt, sealed.is_err() && short.is_empty(), "no room");
    let mut in_out = Vec::new(rt.alloc());
    sealing.seal_in_place_append_tag(Aad::empty(), &mut in_out)?;
    same(&rt, &in_out, &case.tag, "the tag");
    Ok(())
}

/// Asserts that appending the tag to the message of a case yields `wanted`. If that is `None`, asserts that appending fails
/// and the message is unchanged.
fn appends<const CAP: usize>(
    rt: &impl Abort,
    case: &Case,
    key: &mut SealingKey<OneNonce>,
    in_out: &mut ArrayVec<u8, CAP>,
    wanted: Option<&[u8]>,
) -> Result<(), Fail> {
    in_out.try_extend_from_slice(&case.message)?;
    let sealed = key.seal_in_place_append_tag(aad(case), in_out);
    equal(rt, sealed.is_ok(), wanted.is_some(), "sealed or refused");
    same(
        rt,
        in_out.as_slice(),
        wanted.unwrap_or(&case.message),
        "the buffer",
    );
    Ok(())
}

#[test]
fn gcm_spec_case_4_sealed(rt: HostRuntime) -> Result<(), Fail> {
    let case = Case::parse(rt.alloc(), CASE_4)?;
    let mut key = sealing_once(&case)?;
    appends(&rt, &case, &mut key, &mut ArrayVec::<u8, 75>::new(), None)?;
    let sealed = sealed(rt.alloc(), &case, &[])?;
    appends(
        &rt,
        &case,
        &mut key,
        &mut ArrayVec::<u8, 76>::new(),
        Some(&sealed),
    )?;
    seals(&rt, &mut key, aad(&case), None);
    Ok(())
}

/// Asserts that opening a case at offset 4 yields its message.
fn opens_at_4(rt: &impl Abort, case: &Case, key: &mut OpeningKey<OneNonce>, packet: &mut [u8]) {
    let opened = key.open_within(aad(case), packet, 4..);
    lends(rt, opened, &case.message, "the plaintext");
}

#[test]
fn gcm_spec_case_4_opened_once(rt: HostRuntime) -> Result<(), Fail> {
    let case = Case::parse(rt.alloc(), CASE_4)?;
    let mut key = opening_once(&case)?;
    let mut packet = sealed(rt.alloc(), &case, &[0; 4])?;
    opens_at_4(&rt, &case, &mut key, &mut packet);
    same(&rt, &packet, &opened_at_4(rt.alloc(), &case)?, "the buffer");
    let sealed = sealed(rt.alloc(), &case, &[])?;
    let mut packet = sealed.clone()?;
    let opened = key.open_within(aad(&case), &mut packet, 0..);
    holds(&rt, opened.is_err(), "the nonce is spent");
    same(&rt, &packet, &sealed, "the buffer stays");
    Ok(())
}
