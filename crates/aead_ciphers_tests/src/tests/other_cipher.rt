//! Tests of `aes_gcm::seal_with` and `aes_gcm::open_with` over a cipher that is not AES, and a hash without products.

ghost use Rattle.aead_ciphers.specs.Ghash.{unit_block};
ghost use Rattle.aead_ciphers_tests.specs.FirstBitFlipped.{first_bit_flipped, length-first_bit_flipped};

use crate::tests::checks::{holds, same};
use aead_ciphers::aes_gcm::{open_with, seal_with};
use aead_ciphers::gcm::{UpdateBlock, UpdateBlocks, Xi};
use aead_ciphers_base::aes::{BLOCK_LEN, Block, EncryptBlock, Work};
use aead_ciphers_base::bb;
use aead_ciphers_base::polyfill::slice::AsChunks;
use aead_ciphers_base::values::{Aad, Nonce, Tag};
use aead_vectors::words::Words;
use std::alloc::Global;
use std::process::Abort;
use std::test::Fail;
use test_support::one_block::OneBlock;

/// The block of the polynomial 1 (SP 800-38D section 6.3).
const UNIT_BLOCK: Block = [0x80, 0, 0, 0, 0, 0, 0, 0, 0, 0, 0, 0, 0, 0, 0, 0];

/// The cipher that flips the first bit of a block, and so encrypts the zero block to the unit block.
#[derive(Drop)]
struct FlipFirstBit;

/// The same in counter mode.
const CIPHER: OneBlock<'_, FlipFirstBit> = OneBlock {
    cipher: &FlipFirstBit,
};

impl EncryptBlock for FlipFirstBit {
    ghost cipher = { λ _ block. first_bit_flipped block };

    ghost length_cipher = { λ _ block size. length-first_bit_flipped block size };

    fn encrypt_block(&self, block: Block, work: &mut Work) -> Block {
        work.add_blocks(1);
        bb::xor_16(block, UNIT_BLOCK)
    }
}

/// GHASH under the unit block, which is the XOR of the blocks.
#[derive(Drop)]
struct XorOfBlocks;

impl UpdateBlock for XorOfBlocks {
    ghost hash_subkey = { λ _. unit_block };

    fn update_block(&self, xi: &mut Xi, block: Block, work: &mut Work) {
        let sum = bb::xor_16(*xi.as_ref(), block);
        xi.set(sum);
        work.add_product();
    }
}

impl UpdateBlocks for XorOfBlocks {
    fn update_blocks(&self, xi: &mut Xi, input: AsChunks<'_, u8, BLOCK_LEN>, work: &mut Work) {
        for block in input {
            self.update_block(xi, *block, work);
        }
    }
}

/// The AAD, the message, the ciphertext and the tag, under the nonce 01 02 .. 0c. Computed in Python from SP 800-38D section 7.1,
/// with the product by the unit block left out.
const SEALED: [&str; 5] = [
    "- - - 8102030405060708090a0b0c00000001",
    "- 52 d3 5202030405060708090a0b0c00000009",
    "4da7f2 370d9e260e27136550a4a3a6d07f5c0c b60f9d220b21146d59aea8aad07f5c0e 7aaa6c260e27137d50a4a3a6d07f5c8f",
    "332f8b1224083fd22b902f8911e81818f8c99d5d 5d9831957504d90e945de2e8f54ee781cc75f636d85099095aa300165a67036f9b540d6b8f0be211 dc9a32917002de069d57e9e4f54ee7834d77f532dd569e0153a90b1a5a67036c1a560e6f8a0de519 c15fdc8706579d64ec64c67bbec1fdb6",
    "- 96d5234a42b24c6ba4e6ed24ec636a8ac0a1271e5866279238aaf84e58056d8f2fa8edd094ba97ae8b15442ee2db611a91bfe39469733a9247d58fa3c55018300372555fd235f11829fb388c22e44cb637f01210c3707a90b405420fb169779edfb5b9342405157f54b12eae62d11e887eb0766d1877f8c6eff26b5010af3177e795 17d7204e47b44b63adece628ec636a8841a3241a5d60209a31a0f34258056d8caeaaeed491bc90a6821f4f22e2db611e10bde0906c753d9a4edf84afc55018358270565bd733f61020f1338022e44cb0b6f21114c6767d98bd0f4903b16977995eb7ba30210312775dbb25a262d11e80ffb275691d71ffcee6f8605c10af317e6697 9a718102cf2ca7fc7f3bea96721e6ee9",
];

fn nonce() -> Nonce {
    Nonce::assume_unique_for_key([1, 2, 3, 4, 5, 6, 7, 8, 9, 10, 11, 12])
}

fn seals(
    rt: &impl Abort,
    aad: &[u8],
    buffer: &mut [u8],
    ciphertext: &[u8],
    wanted: [u8; 16],
) -> Result<Tag, Fail> {
    let aad = Aad::from(aad);
    let mut work = Work::new();
    let tag = seal_with(&CIPHER, &XorOfBlocks, nonce(), aad, buffer, &mut work)?;
    same(rt, buffer, ciphertext, "the ciphertext");
    same(rt, tag.as_ref(), &wanted, "the tag");
    Ok(tag)
}

fn opens(rt: &impl Abort, aad: &[u8], tag: Tag, buffer: &mut [u8], start: usize) -> bool {
    let aad = Aad::from(aad);
    let mut work = Work::new();
    open_with(
        &CIPHER,
        &XorOfBlocks,
        nonce(),
        aad,
        tag,
        buffer,
        start..,
        &mut work,
    )
    .is_ok()
}

/// Asserts that a false tag is refused, and then that the tag is accepted.
fn opens_with_its_tag(rt: &impl Abort, aad: &[u8], tag: Tag, buffer: &mut [u8]) {
    let false_tag = Tag::from([0; 16]);
    holds(rt, !opens(rt, aad, false_tag, buffer, 3), "a false tag");
    holds(rt, opens(rt, aad, tag, buffer, 3), "the tag");
}

/// Asserts that a message after three bytes is sealed as these bytes with this tag, and opened.
fn seals_and_opens(
    rt: &impl Abort,
    (aad, message, ciphertext): (&[u8], &[u8], &[u8]),
    tag: [u8; 16],
    buffer: &mut [u8],
) -> Result<(), Fail> {
    let start = buffer.len().min(3);
    let tag = seals(rt, aad, &mut buffer[start..], ciphertext, tag)?;
    opens_with_its_tag(rt, aad, tag, buffer);
    holds(rt, buffer.starts_with(message), "the message");
    Ok(())
}

/// Returns three bytes and a message.
fn after_three(alloc: Global, message: &[u8]) -> Result<Vec<u8>, Fail> {
    let mut buffer = vec![in alloc; 0; 3]?;
    buffer.extend_from_slice(message)?;
    Ok(buffer)
}

/// Asserts the same of a line.
fn seals_line(rt: &impl Abort, alloc: Global, line: &'static str) -> Result<(), Fail> {
    let mut words = Words::new(line);
    let aad = words.bytes(alloc)?;
    let message = words.bytes(alloc)?;
    let ciphertext = words.bytes(alloc)?;
    let tag = words.array()?;
    let mut buffer = after_three(alloc, &message)?;
    seals_and_opens(rt, (&aad, &message, &ciphertext), tag, &mut buffer)
}

#[test]
fn another_cipher_and_hash(rt: HostRuntime) -> Result<(), Fail> {
    for line in SEALED {
        seals_line(&rt, rt.alloc(), line)?;
    }
    Ok(())
}
