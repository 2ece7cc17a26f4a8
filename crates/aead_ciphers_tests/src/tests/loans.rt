//! Tests of the five calls that return the plaintext as a mutable slice: the contents of the buffer once the borrow ends.
//! The two callers with contracts, over any expanded key, show what a
//! caller's proof learns from the contracts of the calls.

ghost use Rattle.std.specs.Prelude.{◌≡◌, IsFalse};
ghost use Rattle.aead_ciphers.specs.Aes.{aes};
ghost use Rattle.aead_ciphers.specs.Gcm.{OpenedAttached};
ghost use Rattle.aead_ciphers.specs.Values.{aad_bytes};

use crate::tests::cases::{aad, key, nonce, opening_once, sealed};
use crate::tests::checks::{holds, same};
use aead_ciphers::aead::generic::LessSafeKey;
use aead_ciphers::aead::{Aad, Nonce, Tag, Unspecified};
use aead_ciphers::aes_gcm::GcmKey;
use aead_vectors::gcm_spec::{CASE_4, Case};
use std::alloc::Global;
use std::ops::RangeFrom;
use std::process::Abort;
use std::test::Fail;

/// Opens a message, and ends the borrow of the plaintext. The contract describes every byte of the buffer.
fn opens<K: GcmKey>(
    key: &LessSafeKey<K>,
    nonce: Nonce,
    aad: Aad<'_>,
    in_out: &mut [u8],
    ciphertext_and_tag: RangeFrom<usize>,
) -> bool
    ensures opened { OpenedAttached (aes key.now.bytes) nonce (aad_bytes aad.entry)
        ciphertext_and_tag.start in_out.old result in_out.new }
    ensures refused { IsFalse result → in_out.new ≡ in_out.old }
{
    match key.open_within(nonce, aad, in_out, ciphertext_and_tag) {
        Ok(_) => true,
        Err(_) => false,
    }
}

/// Like `opens`, but with the call that returns the length of the plaintext.
fn opens_to_front<K: GcmKey>(
    key: &LessSafeKey<K>,
    nonce: Nonce,
    aad: Aad<'_>,
    in_out: &mut [u8],
    ciphertext_and_tag: RangeFrom<usize>,
) -> bool
    ensures opened { OpenedAttached (aes key.now.bytes) nonce (aad_bytes aad.entry)
        ciphertext_and_tag.start in_out.old result in_out.new }
    ensures refused { IsFalse result → in_out.new ≡ in_out.old }
{
    key.open_within_to_front(nonce, aad, in_out, ciphertext_and_tag)
        .is_ok()
}

#[test]
fn callers_with_clauses(rt: HostRuntime) -> Result<(), Fail> {
    let case = Case::parse(rt.alloc(), CASE_4)?;
    let key = key(&case)?;
    let packet = sealed(rt.alloc(), &case, &[])?;
    let opened = opens(&key, nonce(&case), aad(&case), &mut packet.clone()?, 0..);
    holds(&rt, opened, "the call that lends");
    let opened = opens_to_front(&key, nonce(&case), aad(&case), &mut packet.clone()?, 0..);
    holds(&rt, opened, "the call that returns a length");
    Ok(())
}

/// A call that returns the plaintext as a mutable slice.
#[derive(Clone, Copy)]
enum Call {
    SeparateTag,
    Within,
    InPlace,
    NextWithin,
    NextInPlace,
}

/// Each call, and the offset at which it opens.
const CALLS: [(Call, usize); 5] = [
    (Call::SeparateTag, 4),
    (Call::Within, 4),
    (Call::InPlace, 0),
    (Call::NextWithin, 4),
    (Call::NextInPlace, 0),
];

/// Overwrites the plaintext, if there is one, and returns whether there is.
fn fills(opened: Result<&mut [u8], Unspecified>) -> bool {
    match opened {
        Ok(plaintext) => {
            plaintext.fill(0x11);
            true
        }
        Err(_) => false,
    }
}

/// Opens a case and overwrites the plaintext, and returns whether it succeeded.
fn opens_and_fills(case: &Case, call: Call, in_out: &mut [u8], start: usize) -> Result<bool, Fail> {
    let key = key(case)?;
    let mut opening = opening_once(case)?;
    let (nonce, aad, tag) = (nonce(case), aad(case), Tag::from(case.tag));
    Ok(match call {
        Call::SeparateTag => {
            fills(key.open_in_place_separate_tag(nonce, aad, tag, in_out, start..))
        }
        Call::Within => fills(key.open_within(nonce, aad, in_out, start..)),
        Call::InPlace => fills(key.open_in_place(nonce, aad, in_out)),
        Call::NextWithin => fills(opening.open_within(aad, in_out, start..)),
        Call::NextInPlace => fills(opening.open_in_place(aad, in_out)),
    })
}

/// Returns the buffer that a call opens: the bytes before `start`, the ciphertext, and the tag unless it is separate.
fn buffer(alloc: Global, case: &Case, call: Call, start: usize) -> Result<Vec<u8>, Fail> {
    let front = [0xee; 4];
    let mut bytes = sealed(alloc, case, front.get(..start).ok_or("a start")?)?;
    if let Call::SeparateTag = call {
        bytes.truncate(64);
    }
    Ok(bytes)
}

/// Asserts that a call succeeds, and that the buffer then has the overwritten plaintext and is otherwise unchanged.
fn ends_filled(
    rt: &impl Abort,
    alloc: Global,
    case: &Case,
    call: Call,
    start: usize,
) -> Result<(), Fail> {
    let mut wanted = buffer(alloc, case, call, start)?;
    let mut in_out = wanted.clone()?;
    holds(
        rt,
        opens_and_fills(case, call, &mut in_out, start)?,
        "accepted",
    );
    for byte in wanted.iter_mut().take(60) {
        *byte = 0x11;
    }
    same(rt, &in_out, &wanted, "the buffer after the loan");
    Ok(())
}

#[test]
fn a_loan_ends_with_what_was_written(rt: HostRuntime) -> Result<(), Fail> {
    let case = Case::parse(rt.alloc(), CASE_4)?;
    for (call, start) in CALLS {
        ends_filled(&rt, rt.alloc(), &case, call, start)?;
    }
    Ok(())
}

/// Asserts that a call fails and the buffer is unchanged.
fn stays(
    rt: &impl Abort,
    alloc: Global,
    case: &Case,
    call: Call,
    before: &[u8],
    start: usize,
) -> Result<(), Fail> {
    let mut in_out = before.to_vec(alloc)?;
    let opened = opens_and_fills(case, call, &mut in_out, start)?;
    holds(rt, !opened, "refused");
    same(rt, &in_out, before, "the buffer after the refusal");
    Ok(())
}

/// Asserts the same for a buffer shorter than a tag, a start past the last one if the call takes one, and a wrong tag.
fn stays_whatever_is_wrong(
    rt: &impl Abort,
    alloc: Global,
    case: &Case,
    call: Call,
    bytes: &mut [u8],
    start: usize,
) -> Result<(), Fail> {
    stays(rt, alloc, case, call, &[7; 15], 0)?;
    if start != 0 {
        stays(rt, alloc, case, call, bytes, 65)?;
    }
    if let Some(last) = bytes.last_mut() {
        *last ^= 1;
    }
    stays(rt, alloc, case, call, bytes, start)
}

#[test]
fn a_refused_call_leaves_the_buffer(rt: HostRuntime) -> Result<(), Fail> {
    let case = Case::parse(rt.alloc(), CASE_4)?;
    for (call, start) in CALLS {
        let mut bytes = buffer(rt.alloc(), &case, call, start)?;
        stays_whatever_is_wrong(&rt, rt.alloc(), &case, call, &mut bytes, start)?;
    }
    Ok(())
}
