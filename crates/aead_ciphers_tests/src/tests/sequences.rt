//! Tests of nonce sequences without a key.

use crate::tests::checks::{equal, holds, same};
use aead_ciphers::aead::{
    CounterSequence, NONCE_LEN, NonceSequence, Unspecified, XoredSequence, nonce_of,
};
use std::process::Abort;
use std::test::Fail;

/// Asserts that a counter of `count` numbers, starting at `first`, is created if and only if `is_made`.
fn counts(rt: &impl Abort, first: u64, count: u64, is_made: bool) {
    let sequence = CounterSequence::new([0; 4], first, count);
    equal(rt, sequence.is_ok(), is_made, "a counter's end");
}

#[test]
fn a_counter_ends_at_the_last_number(rt: HostRuntime) {
    counts(&rt, u64::MAX, 1, true);
    counts(&rt, u64::MAX, 2, false);
    counts(&rt, u64::MAX, 0, true);
    counts(&rt, 0, u64::MAX, true);
    counts(&rt, 1, u64::MAX, true);
    counts(&rt, 2, u64::MAX, false);
}

/// Asserts that the next nonce is this one, or that none is left.
fn gives<N: NonceSequence>(rt: &impl Abort, sequence: &mut N, wanted: Option<&[u8; NONCE_LEN]>) {
    match (sequence.advance(), wanted) {
        (Ok(nonce), Some(wanted)) => same(rt, nonce.as_ref(), wanted, "the nonce"),
        (Err(Unspecified), None) => {}
        _ => holds(rt, false, "a nonce or none"),
    }
}

#[test]
fn a_counter_gives_big_endian_numbers(rt: HostRuntime) -> Result<(), Fail> {
    let mut sequence = CounterSequence::new([1, 2, 3, 4], 0x05060708090a0bff, 2)?;
    gives(
        &rt,
        &mut sequence,
        Some(&[1, 2, 3, 4, 5, 6, 7, 8, 9, 10, 11, 255]),
    );
    gives(
        &rt,
        &mut sequence,
        Some(&[1, 2, 3, 4, 5, 6, 7, 8, 9, 10, 12, 0]),
    );
    gives(&rt, &mut sequence, None);
    gives(&rt, &mut sequence, None);
    Ok(())
}

// The IV and the packet number of RFC 9001 appendix A.5, and the nonces of this packet and of the next.
const IV: [u8; NONCE_LEN] = [
    0xe0, 0x45, 0x9b, 0x34, 0x74, 0xbd, 0xd0, 0xe4, 0x4a, 0x41, 0xc1, 0x44,
];

const NUMBER: u64 = 654360564;

const NONCE: [u8; NONCE_LEN] = [
    0xe0, 0x45, 0x9b, 0x34, 0x74, 0xbd, 0xd0, 0xe4, 0x6d, 0x41, 0x7e, 0xb0,
];

const NEXT_NONCE: [u8; NONCE_LEN] = [
    0xe0, 0x45, 0x9b, 0x34, 0x74, 0xbd, 0xd0, 0xe4, 0x6d, 0x41, 0x7e, 0xb1,
];

#[test]
fn rfc_9001_a_5_nonce(rt: HostRuntime) -> Result<(), Fail> {
    let nonce = nonce_of(&IV, NUMBER);
    same(&rt, nonce.as_ref(), &NONCE, "of the number");
    let mut sequence = XoredSequence::new(IV, NUMBER, NUMBER + 2)?;
    gives(&rt, &mut sequence, Some(&NONCE));
    gives(&rt, &mut sequence, Some(&NEXT_NONCE));
    gives(&rt, &mut sequence, None);
    gives(&rt, &mut sequence, None);
    Ok(())
}

#[test]
fn numbers_below_a_limit(rt: HostRuntime) -> Result<(), Fail> {
    gives(&rt, &mut XoredSequence::new(IV, 0, 1)?, Some(&IV));
    gives(&rt, &mut XoredSequence::new(IV, 1, 1)?, None);
    let backwards = XoredSequence::new(IV, 2, 1);
    holds(&rt, backwards.is_err(), "the limit before the first number");
    Ok(())
}
