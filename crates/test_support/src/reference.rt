//! A reference implementation of counter mode and the tag, block by block and by index as in SP 800-38D. Of the library it has the
//! cipher of one block alone.

use aead_ciphers_base::aes::{self, EncryptBlock, Work};
use std::alloc::{AllocError, Allocator};

/// Returns the encryption of counter block k.
fn keystream_block(key: &aes::Key, nonce: &[u8; 12], k: u32) -> [u8; 16] {
    let mut block = [0; 16];
    block[..12].copy_from_slice(nonce);
    block[12..].copy_from_slice(&k.to_be_bytes());
    key.encrypt_block(block, &mut Work::new())
}

/// Returns the ciphertext of a message: its piece j of 16 bytes XOR the encryption of counter block 2 + j.
pub fn ciphertext<A: Allocator>(
    alloc: A,
    key: &aes::Key,
    nonce: &[u8; 12],
    message: &[u8],
) -> Result<Vec<u8, A>, AllocError> {
    let mut bytes = Vec::new(alloc);
    let mut k = 1u32;
    for piece in message.chunks(16) {
        k = k.wrapping_add(1);
        let keystream = keystream_block(key, nonce, k);
        for (byte, mask) in piece.iter().zip(&keystream) {
            bytes.push(byte ^ mask)?;
        }
    }
    Ok(bytes)
}

/// Returns the ciphertext of a message, followed by the tag.
pub fn sealed<A: Allocator>(
    alloc: A,
    key: &aes::Key,
    nonce: &[u8; 12],
    aad: &[u8],
    message: &[u8],
) -> Result<Vec<u8, A>, AllocError> {
    let mut bytes = ciphertext(alloc, key, nonce, message)?;
    let tag = tag(key, nonce, aad, &bytes);
    bytes.extend_from_slice(&tag)?;
    Ok(bytes)
}

/// Returns at most 16 bytes as a big-endian number, after padding them with zeros at the end.
fn padded(piece: &[u8]) -> u128 {
    let mut block = [0; 16];
    for (to, from) in block.iter_mut().zip(piece) {
        *to = *from;
    }
    u128::from_be_bytes(block)
}

/// Returns the product of two blocks, in which the first bit is the constant coefficient.
fn product(x: u128, y: u128) -> u128 {
    let mut sum = 0;
    let mut power = y;
    for i in (0..128u32).rev() {
        if x >> i & 1 == 1 {
            sum ^= power;
        }
        let carry = power & 1 == 1;
        power >>= 1;
        if carry {
            power ^= 0xe1 << 120;
        }
    }
    sum
}

/// Returns the tag: the encryption of counter block 1, plus each block i of the m hashed blocks times the power m + 1 - i of
/// the hash subkey.
pub fn tag(key: &aes::Key, nonce: &[u8; 12], aad: &[u8], ciphertext: &[u8]) -> [u8; 16] {
    let h = u128::from_be_bytes(key.encrypt_block([0; 16], &mut Work::new()));
    let lengths = (8 * aad.len() as u128) << 64 | 8 * ciphertext.len() as u128;
    let mut power = h;
    let mut sum = product(lengths, power);
    for bytes in [ciphertext, aad] {
        for piece in bytes.chunks(16).rev() {
            power = product(power, h);
            sum ^= product(padded(piece), power);
        }
    }
    (sum ^ u128::from_be_bytes(keystream_block(key, nonce, 1))).to_be_bytes()
}
