//! Tests of `bb`: equality of slices, and XOR.

use crate::tests::checks::{equal, same};
use aead_ciphers_base::bb::{verify_slices_are_equal, xor_16, xor_assign, xor_assign_at_start};
use std::process::Abort;

/// Asserts that two slices compare equal if and only if `are_equal`.
fn compares(rt: &impl Abort, a: &[u8], b: &[u8], are_equal: bool) {
    let compared = verify_slices_are_equal(a, b);
    equal(rt, compared.is_ok(), are_equal, "equal or not");
}

#[test]
fn equal_slices_are_accepted(rt: HostRuntime) {
    compares(&rt, &[], &[], true);
    compares(&rt, &[0x5a; 255], &[0x5a; 255], true);
}

#[test]
fn one_flipped_bit_is_refused(rt: HostRuntime) {
    let bytes = [0x5a; 255];
    for i in 0..255 {
        for bit in 0..8u32 {
            let mut flipped = bytes;
            flipped[i] ^= 1 << bit;
            compares(&rt, &bytes, &flipped, false);
        }
    }
}

#[test]
fn another_length_is_refused(rt: HostRuntime) {
    compares(&rt, &[0x5a; 255], &[0x5a; 127], false);
    compares(&rt, &[0x5a; 127], &[0x5a; 255], false);
}

/// Asserts the result of XOR at the start of the bytes.
fn xors_at_start(rt: &impl Abort, mut bytes: [u8; 3], with: &[u8], wanted: &[u8]) {
    xor_assign_at_start(&mut bytes, with);
    same(rt, &bytes, wanted, "the XOR");
}

#[test]
fn xor_of_a_shorter_slice_leaves_the_rest(rt: HostRuntime) {
    xors_at_start(&rt, [1, 2, 3], &[1, 1], &[0, 3, 3]);
    xors_at_start(&rt, [0, 3, 3], &[1, 1, 1, 1], &[1, 2, 2]);
}

#[test]
fn xor_of_each_byte_and_of_blocks(rt: HostRuntime) {
    let mut bytes = [0, 1, 0xff];
    xor_assign(&mut bytes, 0x0f);
    same(&rt, &bytes, &[0x0f, 0x0e, 0xf0], "each byte");
    same(&rt, &xor_16([0x55; 16], [0xff; 16]), &[0xaa; 16], "blocks");
}
