//! Tests of `aes_gcm`: the work of each call, and every byte of long messages.

use crate::tests::callers::seal_where_room;
use crate::tests::cases::false_tag;
use crate::tests::checks::{equal, holds, same};
use crate::tests::counting::work;
use aead_ciphers::aes_gcm::{Key, open};
use aead_ciphers_base::aes::{self, KeyBytes, Work};
use aead_ciphers_base::values::{Aad, Nonce, Tag};
use aead_vectors::gcm_spec::{CASE_1, CASE_4, CASE_16, Case};
use std::alloc::Global;
use std::process::Abort;
use std::test::Fail;
use test_support::messages::{counting, lens};
use test_support::reference;

/// Expands the key of a test case.
fn key(case: &Case) -> Result<Key, Fail> {
    Ok(Key::new(KeyBytes::from_slice(&case.key)?, &mut Work::new())?)
}

/// Seals with the key and the nonce of a test case, and returns the tag and the work.
fn sealed(case: &Case, aad: &[u8], buffer: &mut [u8]) -> Result<(Tag, Work), Fail> {
    let mut work = Work::new();
    let nonce = Nonce::assume_unique_for_key(case.nonce);
    let tag = seal_where_room(&key(case)?, nonce, Aad::from(aad), buffer, &mut work)?;
    Ok((tag, work))
}

/// Opens at `start` with the key and the nonce of a test case, and returns whether it succeeded, and the work.
fn opened(
    case: &Case,
    aad: &[u8],
    tag: Tag,
    buffer: &mut [u8],
    start: usize,
) -> Result<(bool, Work), Fail> {
    let mut work = Work::new();
    let nonce = Nonce::assume_unique_for_key(case.nonce);
    let aad = Aad::from(aad);
    let opened = open(&key(case)?, nonce, aad, tag, buffer, start.., &mut work);
    Ok((opened.is_ok(), work))
}

/// Asserts the numbers of cipher blocks and products.
fn worked(rt: &impl Abort, work: &Work, blocks: u64, products: u64, what: &str) {
    equal(rt, work.blocks(), blocks, what);
    equal(rt, work.products(), products, what);
}

#[test]
fn work_of_a_key(rt: HostRuntime) {
    let mut work = Work::new();
    let key = Key::new(KeyBytes::AES_128(&[0; 16]), &mut work);
    assert!(rt; key.is_ok());
    worked(&rt, &work, 1, 0, "a key");
}

// A wrong tag, and a start past the end.
#[test]
fn work_of_a_refused_opening(rt: HostRuntime) -> Result<(), Fail> {
    let case = Case::parse(rt.alloc(), CASE_4)?;
    for (len, start, blocks, products) in [(3073, 0, 1, 196), (64, 4, 1, 7), (4, 5, 0, 0)] {
        let mut buffer = vec![in rt.alloc(); 0; len]?;
        let zeros = Tag::from([0; 16]);
        let (is_opened, work) = opened(&case, &case.aad, zeros, &mut buffer, start)?;
        holds(&rt, !is_opened, "a refusal");
        worked(&rt, &work, blocks, products, "a refusal");
    }
    Ok(())
}

/// Asserts the work of sealing a case, of rejecting a wrong tag after four bytes, which takes one block, and of opening.
fn works(
    rt: &impl Abort,
    alloc: Global,
    case: &Case,
    blocks: u64,
    products: u64,
) -> Result<(), Fail> {
    let mut buffer = case.message.clone()?;
    let (tag, work) = sealed(case, &case.aad, &mut buffer)?;
    worked(rt, &work, blocks, products, "seal");
    let mut after_four = [0; 4].to_vec(alloc)?;
    after_four.extend_from_slice(&buffer)?;
    let (_, work) = opened(case, &case.aad, false_tag(case.tag), &mut after_four, 4)?;
    worked(rt, &work, 1, products, "a false tag");
    let (_, work) = opened(case, &case.aad, tag, &mut buffer, 0)?;
    worked(rt, &work, blocks, products, "open");
    same(rt, &buffer, &case.message, "the message");
    Ok(())
}

#[test]
fn work_of_gcm_spec_cases(rt: HostRuntime) -> Result<(), Fail> {
    for (line, blocks, products) in [(CASE_1, 1, 1), (CASE_4, 5, 7)] {
        let case = Case::parse(rt.alloc(), line)?;
        works(&rt, rt.alloc(), &case, blocks, products)?;
    }
    Ok(())
}

/// The key and the nonce of test case 4, and zeros.
#[test]
fn work_of_each_length(rt: HostRuntime) -> Result<(), Fail> {
    let mut case = Case::parse(rt.alloc(), CASE_4)?;
    for len in lens(rt.alloc())? {
        let aad_len = len % 41;
        case.message = vec![in rt.alloc(); 0; len]?;
        case.aad = vec![in rt.alloc(); 0; aad_len]?;
        let (blocks, products) = work(len, aad_len);
        works(&rt, rt.alloc(), &case, blocks, products)?;
    }
    Ok(())
}

/// Asserts that opening at `start` fails for a wrong tag and the buffer is unchanged. For the correct tag, asserts that the
/// message is at the front and each byte after it is unchanged.
fn opened_from(
    rt: &impl Abort,
    alloc: Global,
    case: &Case,
    tag: [u8; 16],
    (message, ciphertext): (&[u8], &[u8]),
    start: usize,
) -> Result<(), Fail> {
    let mut whole = vec![in alloc; 0x7b; start]?;
    whole.extend_from_slice(ciphertext)?;
    let mut buffer = whole.clone()?;
    let (is_opened, _) = opened(case, &case.aad, false_tag(tag), &mut buffer, start)?;
    holds(rt, !is_opened, "a false tag");
    same(rt, &buffer, &whole, "the buffer stays");
    let (is_opened, _) = opened(case, &case.aad, Tag::from(tag), &mut buffer, start)?;
    holds(rt, is_opened, "opened");
    let (front, after) = parts(&buffer, message.len());
    same(rt, front, message, "the message");
    let (_, after_before) = parts(&whole, message.len());
    same(rt, after, after_before, "what comes after it");
    Ok(())
}

/// Splits bytes at `place`, or at the end if `place` is past it.
fn parts(bytes: &[u8], place: usize) -> (&[u8], &[u8]) {
    bytes.split_at(place.min(bytes.len()))
}

/// Asserts that a message is sealed as by `reference`, and opened at each of six starts. So that the test doesn't take long, only
/// some lengths are opened at three starts around a chunk too.
fn every_start(rt: &impl Abort, alloc: Global, case: &Case, len: usize) -> Result<(), Fail> {
    let key = aes::Key::new(KeyBytes::from_slice(&case.key)?)?;
    let message = counting(alloc, len)?;
    let ciphertext = reference::ciphertext(alloc, &key, &case.nonce, &message)?;
    let expected = reference::tag(&key, &case.nonce, &case.aad, &ciphertext);
    let mut buffer = message.clone()?;
    let (tag, _) = sealed(case, &case.aad, &mut buffer)?;
    same(rt, &buffer, &ciphertext, "the ciphertext");
    same(rt, tag.as_ref(), &expected, "the tag");
    for start in [0, 1, 4, 15, 16, 17] {
        opened_from(rt, alloc, case, expected, (&message, &ciphertext), start)?;
    }
    if len % 16 < 2 || 3071 <= len {
        for start in [3071, 3072, 3073] {
            opened_from(rt, alloc, case, expected, (&message, &ciphertext), start)?;
        }
    }
    Ok(())
}

#[test]
fn every_byte_at_every_start(rt: HostRuntime) -> Result<(), Fail> {
    let case = Case::parse(rt.alloc(), CASE_4)?;
    for len in lens(rt.alloc())? {
        every_start(&rt, rt.alloc(), &case, len)?;
    }
    Ok(())
}

#[test]
fn every_byte_at_every_start_under_aes_256(rt: HostRuntime) -> Result<(), Fail> {
    let case = Case::parse(rt.alloc(), CASE_16)?;
    for len in lens(rt.alloc())? {
        every_start(&rt, rt.alloc(), &case, len)?;
    }
    Ok(())
}
