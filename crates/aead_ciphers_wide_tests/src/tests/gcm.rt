//! Tests of `gcm`: a hash of the GCM specification, and blocks that are hashed in pieces.

use crate::tests::checks::same;
use aead_ciphers::gcm::{UpdateBlock, UpdateBlocks, Xi};
use aead_ciphers_base::aes::{BLOCK_LEN, Work};
use aead_ciphers_base::polyfill::slice::as_chunks;
use aead_ciphers_wide::gcm::Key;
use aead_vectors::gcm_spec;

#[test]
fn gcm_spec_case_2(rt: HostRuntime) {
    let key = Key::new(gcm_spec::CASE_2_H);
    let lengths: u128 = 0x80;
    let mut xi = Xi::zero();
    key.update_block(&mut xi, gcm_spec::CASE_2_CIPHERTEXT, &mut Work::new());
    same(&rt, xi.as_ref(), &gcm_spec::CASE_2_X_1, "the first block");
    key.update_block(&mut xi, lengths.to_be_bytes(), &mut Work::new());
    same(&rt, xi.as_ref(), &gcm_spec::CASE_2_GHASH, "the lengths");
}

// Blocks are hashed in pairs, and the last of an odd number alone.
#[test]
fn update_blocks(rt: HostRuntime) {
    let key = Key::new(gcm_spec::CASE_2_H);
    let bytes: [u8; 80] =
        *b"some eighty bytes, which are five blocks, and which are hashed at once or alone!";
    let mut alone = Xi::zero();
    for end in 0..=5 {
        let (blocks, _) = as_chunks::<u8, BLOCK_LEN>(&bytes[..16 * end]);
        let mut at_once = Xi::zero();
        key.update_blocks(&mut at_once, blocks, &mut Work::new());
        if let Some(last) = bytes[..16 * end].last_chunk() {
            key.update_block(&mut alone, *last, &mut Work::new());
        }
        same(&rt, at_once.as_ref(), alone.as_ref(), "the hash");
    }
}
