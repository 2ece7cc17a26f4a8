//! Tests of `gcm`: values from the test cases of the GCM specification, and properties that no contract states.

ghost use Rattle.std.specs.Prelude.{◌≡◌, ℕ, List};
ghost use Rattle.aead_vectors.specs.declared.gcm_spec.TheConstants.{CASE_2_CIPHERTEXT, CASE_2_H, CASE_2_X_1};
ghost use Rattle.std.specs.Int.{to_be_bytes, w128};
ghost use Rattle.aead_ciphers.specs.Ghash.{IsBlock, ◌•◌, unit_block};

use crate::tests::checks::{equal, same};
use aead_ciphers::gcm::{Context, Key, KeyValue, MAX_IN_OUT_LEN, UpdateBlock, UpdateBlocks, Xi};
use aead_ciphers_base::aes::{self, BLOCK_LEN, EncryptBlock, KeyBytes, Work, ZERO_BLOCK};
use aead_ciphers_base::polyfill::slice::as_chunks;
use aead_ciphers_base::values::Aad;
use aead_vectors::gcm_spec;
use std::process::Abort;
use std::test::Fail;

// The unit block, 80 00 .. 00, is the identity of the product.
fn unit_of_the_product()
    ensures { (block : List ℕ) → IsBlock block → block • unit_block ≡ block }
{}

// Products, computed by the definition.
fn gcm_spec_products()
    ensures reduced { to_be_bytes w128 1 • to_be_bytes w128 0x4000_0000_0000_0000_0000_0000_0000_0000
        ≡ to_be_bytes w128 0xe100_0000_0000_0000_0000_0000_0000_0000 }
    ensures case_2 { CASE_2_CIPHERTEXT • CASE_2_H ≡ CASE_2_X_1 }
{}

fn key(h: [u8; 16]) -> Key {
    Key::new(KeyValue::new(h))
}

/// Asserts the hash after one more block.
fn hashes(rt: &impl Abort, key: &Key, xi: &mut Xi, block: [u8; 16], wanted: &[u8; 16]) {
    key.update_block(xi, block, &mut Work::new());
    same(rt, xi.as_ref(), wanted, "the hash");
}

#[test]
fn gcm_spec_case_2(rt: HostRuntime) {
    let key = key(gcm_spec::CASE_2_H);
    let lengths: u128 = 0x80;
    let mut xi = Xi::zero();
    hashes(
        &rt,
        &key,
        &mut xi,
        gcm_spec::CASE_2_CIPHERTEXT,
        &gcm_spec::CASE_2_X_1,
    );
    hashes(
        &rt,
        &key,
        &mut xi,
        lengths.to_be_bytes(),
        &gcm_spec::CASE_2_GHASH,
    );
}

#[test]
fn subkey_of_gcm_spec_case_2(rt: HostRuntime) -> Result<(), Fail> {
    let key = aes::Key::new(KeyBytes::AES_128(&[0; 16]))?;
    let subkey = key.encrypt_block(ZERO_BLOCK, &mut Work::new());
    same(&rt, &subkey, &gcm_spec::CASE_2_H, "the hash subkey");
    Ok(())
}

// Hashes the blocks of 80 bytes in pieces. A piece ends after block i if bit i of `cuts` is one.
fn in_pieces(key: &Key, bytes: &[u8; 80], cuts: u8) -> Xi {
    let mut xi = Xi::zero();
    let mut rest = &bytes[..];
    for i in 0..4u8 {
        if cuts >> i & 1 == 1 {
            let end = rest.len() - (64 - 16 * usize::from(i));
            let (piece, _) = as_chunks::<u8, BLOCK_LEN>(&rest[..end]);
            key.update_blocks(&mut xi, piece, &mut Work::new());
            rest = &rest[end..];
        }
    }
    let (piece, _) = as_chunks::<u8, BLOCK_LEN>(rest);
    key.update_blocks(&mut xi, piece, &mut Work::new());
    xi
}

#[test]
fn five_blocks_in_pieces(rt: HostRuntime) {
    let key = key(gcm_spec::CASE_2_H);
    let mut bytes = [0; 80];
    for i in 0..80 {
        bytes[i] = i as u8;
    }
    let whole = in_pieces(&key, &bytes, 0);
    for cuts in 1..16 {
        let hash = in_pieces(&key, &bytes, cuts);
        same(&rt, hash.as_ref(), whole.as_ref(), "the pieces' hash");
    }
}

/// Asserts that a context for `len` bytes is created if and only if `is_made`.
fn makes(rt: &impl Abort, len: usize, is_made: bool) {
    let key = key(gcm_spec::CASE_2_H);
    let context = Context::new(&key, Aad::empty(), len, &mut Work::new());
    equal(rt, context.is_ok(), is_made, "a context's length");
}

#[test]
fn limits_of_a_context(rt: HostRuntime) {
    equal(&rt, MAX_IN_OUT_LEN, 68_719_476_704, "the maximum");
    makes(&rt, 1 << 32, true);
    makes(&rt, 68_719_476_704, true);
    makes(&rt, 68_719_476_705, false);
}
