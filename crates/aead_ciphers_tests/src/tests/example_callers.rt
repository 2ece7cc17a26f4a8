//! Tests of `examples` with test vectors of the standards.

use crate::tests::cases::{aad, key, nonce, sealed};
use crate::tests::checks::{equal, holds, lends, same};
use crate::tests::examples::{connection, messages, one_message, reassembly, streams};
use aead_ciphers::aead::{
    AES_256_GCM, Aad, CounterSequence, LessSafeKey, NONCE_LEN, OpeningKey, SealingKey, Tag,
};
use aead_ciphers_base::aes::{self, KeyBytes};
use aead_vectors::gcm_spec::{CASE_1, CASE_2, CASE_2_CIPHERTEXT, CASE_4, CASE_16, Case};
use aead_vectors::{rfc_8439, rfc_9001};
use arrayvec::ArrayVec;
use std::alloc::Global;
use std::process::Abort;
use std::test::Fail;
use test_support::reference;

/// Asserts that a case is sealed, is rejected and unchanged with another AAD, and is opened with its own.
fn seals_and_opens(
    rt: &impl Abort,
    case: &Case,
    key: &[u8; 32],
    in_out: &mut [u8],
) -> Result<(), Fail> {
    let tag = one_message::seal(key, case.nonce, &case.aad, in_out)?;
    same(rt, tag.as_ref(), &case.tag, case.name);
    let opened = one_message::open(key, case.nonce, &[1], Tag::from(case.tag), in_out);
    holds(rt, opened.is_err(), "another AAD");
    same(rt, in_out, &case.ciphertext, case.name);
    one_message::open(key, case.nonce, &case.aad, tag, in_out)?;
    same(rt, in_out, &case.message, case.name);
    Ok(())
}

#[test]
fn gcm_spec_case_16(rt: HostRuntime) -> Result<(), Fail> {
    let case = Case::parse(rt.alloc(), CASE_16)?;
    let key = case
        .key
        .as_slice()
        .as_array::<32>()
        .ok_or("a key's length")?;
    seals_and_opens(&rt, &case, key, &mut case.message.clone()?)
}

/// Asserts that a case is opened after its nonce, and that a message shorter than a nonce is rejected.
fn opens_after_nonce(rt: &impl Abort, key: &LessSafeKey, case: &Case, message: &mut [u8]) {
    let opened = messages::open_after_nonce(key, &case.aad, message);
    equal(rt, opened, Ok(case.message.len()), "the message's length");
    holds(rt, message.starts_with(&case.message), "the message");
    let opened = messages::open_after_nonce(key, &case.aad, &mut [0; NONCE_LEN - 1]);
    holds(rt, opened.is_err(), "shorter than a nonce");
}

#[test]
fn gcm_spec_case_4_after_nonce(rt: HostRuntime) -> Result<(), Fail> {
    let case = Case::parse(rt.alloc(), CASE_4)?;
    let mut message = sealed(rt.alloc(), &case, &case.nonce)?;
    opens_after_nonce(&rt, &key(&case)?, &case, &mut message);
    Ok(())
}

#[test]
fn marks_the_plaintext(rt: HostRuntime) -> Result<(), Fail> {
    let case = Case::parse(rt.alloc(), CASE_2)?;
    let mut in_out = CASE_2_CIPHERTEXT;
    let tag = Tag::from(case.tag);
    messages::open_and_mark(&key(&case)?, nonce(&case), Aad::empty(), tag, &mut in_out)?;
    let marked = [7, 0, 0, 0, 0, 0, 0, 0, 0, 0, 0, 0, 0, 0, 0, 0];
    same(&rt, &in_out, &marked, "the mark");
    Ok(())
}

/// Asserts that appending the tag of a case to an `ArrayVec` succeeds if there is room for 16 bytes. If not, asserts that it
/// fails and the message is unchanged.
fn appends_to<const CAP: usize>(
    rt: &impl Abort,
    key: &LessSafeKey,
    case: &Case,
    in_out: &mut ArrayVec<u8, CAP>,
    has_room: bool,
) -> Result<(), Fail> {
    in_out.try_extend_from_slice(&case.message)?;
    let appended = messages::append_to_array(key, nonce(case), aad(case), in_out);
    equal(rt, appended.is_ok(), has_room, case.name);
    if has_room {
        holds(
            rt,
            in_out.as_slice().starts_with(&case.ciphertext),
            case.name,
        );
        holds(rt, in_out.as_slice().ends_with(&case.tag), case.name);
    } else {
        same(rt, in_out.as_slice(), &case.message, case.name);
    }
    Ok(())
}

#[test]
fn gcm_spec_case_1_to_an_array_vec(rt: HostRuntime) -> Result<(), Fail> {
    let case = Case::parse(rt.alloc(), CASE_1)?;
    let key = key(&case)?;
    appends_to(&rt, &key, &case, &mut ArrayVec::<u8, 16>::new(), true)?;
    appends_to(&rt, &key, &case, &mut ArrayVec::<u8, 15>::new(), false)
}

#[test]
fn gcm_spec_case_4_to_an_array_vec(rt: HostRuntime) -> Result<(), Fail> {
    let case = Case::parse(rt.alloc(), CASE_4)?;
    let key = key(&case)?;
    appends_to(&rt, &key, &case, &mut ArrayVec::<u8, 76>::new(), true)?;
    appends_to(&rt, &key, &case, &mut ArrayVec::<u8, 75>::new(), false)
}

#[test]
fn gcm_spec_case_4_to_a_vec(rt: HostRuntime) -> Result<(), Fail> {
    let case = Case::parse(rt.alloc(), CASE_4)?;
    let mut in_out = case.message.clone()?;
    messages::append(&key(&case)?, nonce(&case), &case.aad, &mut in_out)?;
    same(&rt, &in_out, &sealed(rt.alloc(), &case, &[])?, case.name);
    Ok(())
}

/// Asserts that a message is sent and received.
fn carries(
    rt: &impl Abort,
    sender: &mut SealingKey<CounterSequence>,
    receiver: &mut OpeningKey<CounterSequence>,
    aad: &[u8],
    message: &mut Vec<u8>,
) -> Result<(), Fail> {
    let text = message.clone()?;
    connection::send(sender, aad, message)?;
    let received = connection::receive(receiver, aad, message);
    equal(rt, received, Ok(text.len()), "the length");
    holds(rt, message.as_slice().starts_with(&text), "the text");
    Ok(())
}

/// Two messages are received, and a third is rejected without its tag.
#[test]
fn two_ends(rt: HostRuntime) -> Result<(), Fail> {
    let mut sender = connection::sender(&AES_256_GCM, &[5; 32], [1, 2, 3, 4])?;
    let mut receiver = connection::receiver(&AES_256_GCM, &[5; 32], [1, 2, 3, 4])?;
    for aad in [b"first".as_slice(), b"second".as_slice()] {
        let mut message = b"both ends count".to_vec(rt.alloc())?;
        carries(&rt, &mut sender, &mut receiver, aad, &mut message)?;
    }
    let mut message = [7; 20];
    let _ = connection::send_apart(&mut sender, &mut message)?;
    let received = connection::receive(&mut receiver, &[], &mut message);
    holds(&rt, received.is_err(), "no tag");
    Ok(())
}

// Three packets with headers of five bytes, and the message that is split over them.
const PARTS: [&[u8]; 3] = [
    b"one message goes ",
    b"in three parts ",
    b"and comes whole.\n",
];

const MESSAGE: &[u8; 49] = b"one message goes in three parts and comes whole.\n";

/// Returns the packets, sealed by the reference implementation under the keys of `two_ends`, one after another.
fn packets(alloc: Global) -> Result<Vec<u8>, Fail> {
    let key = aes::Key::new(KeyBytes::AES_256(&[5; 32]))?;
    let mut nonce = [1, 2, 3, 4, 0, 0, 0, 0, 0, 0, 0, 0];
    let mut bytes = Vec::new(alloc);
    for (number, part) in (0..3u8).zip(PARTS) {
        nonce[11] = number;
        bytes.extend_from_slice(b"begin")?;
        bytes.extend_from_slice(&reference::sealed(alloc, &key, &nonce, b"v1", part)?)?;
    }
    Ok(bytes)
}

/// Asserts that three calls of `open_within` put the message together.
fn opens_each(rt: &impl Abort, buffer: &mut [u8; 112]) -> Result<(), Fail> {
    let mut key = connection::receiver(&AES_256_GCM, &[5; 32], [1, 2, 3, 4])?;
    let aad = Aad::from(b"v1".as_slice());
    let opened = key.open_within(aad, &mut buffer[..38], 5..);
    lends(rt, opened, PARTS[0], "the first packet");
    let opened = key.open_within(aad, &mut buffer[17..74], 26..);
    lends(rt, opened, PARTS[1], "the second packet");
    let opened = key.open_within(aad, &mut buffer[32..], 47..);
    lends(rt, opened, PARTS[2], "the third packet");
    Ok(())
}

/// Asserts that the example puts the message together.
fn reassembles(rt: &impl Abort, buffer: &mut [u8; 112]) -> Result<(), Fail> {
    let mut key = connection::receiver(&AES_256_GCM, &[5; 32], [1, 2, 3, 4])?;
    let end = reassembly::reassemble(&mut key, b"v1", buffer, 5..38, 43..74, 79..112);
    equal(rt, end, Ok(49), "the message's length");
    Ok(())
}

/// Asserts that the message is at the front, and that the bytes after it are as they were.
fn is_whole(rt: &impl Abort, buffer: &[u8; 112], before: &[u8; 112]) {
    same(rt, &buffer[..49], MESSAGE, "the message");
    same(rt, &buffer[49..], &before[49..], "the bytes after it");
}

#[test]
fn three_packets_of_one_buffer(rt: HostRuntime) -> Result<(), Fail> {
    let packets = packets(rt.alloc())?;
    let sealed = packets.as_slice().as_array::<112>().ok_or("the length")?;
    let (mut each, mut all) = (*sealed, *sealed);
    opens_each(&rt, &mut each)?;
    reassembles(&rt, &mut all)?;
    is_whole(&rt, &each, sealed);
    is_whole(&rt, &all, sealed);
    Ok(())
}

#[test]
fn rfc_8439_2_4_2_stream(rt: HostRuntime) -> Result<(), Fail> {
    let case = rfc_8439::Case::parse(rt.alloc(), rfc_8439::SECTION_2_4_2)?;
    let mut message = *case
        .plaintext
        .as_slice()
        .as_array::<114>()
        .ok_or("a plaintext's length")?;
    streams::xor_stream(case.key, case.nonce, &mut message);
    same(&rt, &message, &case.ciphertext, case.name);
    Ok(())
}

#[test]
fn rfc_9001_a_2_mask(rt: HostRuntime) -> Result<(), Fail> {
    let mask = streams::mask(&rfc_9001::A_2_KEY, &rfc_9001::A_2_SAMPLE)?;
    same(&rt, &mask, &rfc_9001::A_2_MASK, "the mask");
    Ok(())
}
