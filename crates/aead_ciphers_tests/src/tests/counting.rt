//! Tests of `aes_gcm::seal_with` and `aes_gcm::open_with` over a cipher and a hash that count the calls of each.

ghost use Rattle.std.specs.Prelude.{◌≡◌};
ghost use Rattle.aead_ciphers_base.specs.Aes.{aes as aes_cipher, length_aes};
ghost use Rattle.aead_ciphers_base.specs.Bytes.{zero_block};

use crate::tests::checks::{equal, holds};
use aead_ciphers::aes_gcm::{open_with, seal_with};
use aead_ciphers::gcm::{self, UpdateBlock, UpdateBlocks, Xi};
use aead_ciphers_base::aes::{
    self, BLOCK_LEN, Block, Counter, EncryptBlock, EncryptCtr32, Iv, KeyBytes, Overlapping, Work,
    ZERO_BLOCK,
};
use aead_ciphers_base::polyfill::slice::AsChunks;
use aead_ciphers_base::values::{Aad, Nonce, Tag};
use std::alloc::Global;
use std::cell::Cell;
use std::process::Abort;
use std::test::Fail;
use test_support::messages::lens;

/// Adds `more` to `count`.
fn add(count: &Cell<u64>, more: usize) {
    count.set(count.get().wrapping_add(more as u64));
}

/// AES under a key, and the number of blocks that were asked for.
#[derive(Drop)]
struct CountingCipher<'a> {
    key: &'a aes::Key,
    blocks: &'a Cell<u64>,
}

impl EncryptBlock for CountingCipher<'_> {
    ghost cipher = { λ c block. aes_cipher c.key.now block };

    ghost length_cipher = { λ c block _. length_aes c.key.now block };

    fn encrypt_block(&self, block: Block, work: &mut Work) -> Block {
        add(self.blocks, 1);
        self.key.encrypt_block(block, work)
    }

    fn encrypt_iv_xor_block(&self, iv: Iv, block: Block, work: &mut Work) -> Block {
        add(self.blocks, 1);
        self.key.encrypt_iv_xor_block(iv, block, work)
    }
}

impl EncryptCtr32 for CountingCipher<'_> {
    fn ctr32_encrypt_within(
        &self,
        in_out: Overlapping<'_>,
        counter: &mut Counter,
        work: &mut Work,
    ) {
        let Overlapping { in_out, start } = in_out;
        add(self.blocks, (in_out.len() - start) / BLOCK_LEN);
        self.key
            .ctr32_encrypt_within(Overlapping::within(in_out, start), counter, work);
    }
}

/// GHASH under a key, and the number of products that were asked for.
#[derive(Drop)]
struct CountingHash<'a> {
    key: &'a gcm::Key,
    products: &'a Cell<u64>,
}

impl UpdateBlock for CountingHash<'_> {
    ghost hash_subkey = { λ h. h.key.now };

    fn update_block(&self, xi: &mut Xi, block: Block, work: &mut Work) {
        add(self.products, 1);
        self.key.update_block(xi, block, work);
    }
}

impl UpdateBlocks for CountingHash<'_> {
    fn update_blocks(&self, xi: &mut Xi, input: AsChunks<'_, u8, BLOCK_LEN>, work: &mut Work) {
        add(self.products, input.len());
        self.key.update_blocks(xi, input, work);
    }
}

/// Asserts that the tallies and the numbers of calls are these, and resets the numbers of calls.
fn worked(
    rt: &impl Abort,
    work: &Work,
    asked_blocks: &Cell<u64>,
    asked_products: &Cell<u64>,
    (blocks, products): (u64, u64),
) {
    let asked = (asked_blocks.take(), asked_products.take());
    let found = (work.blocks(), work.products());
    equal(rt, found, (blocks, products), "the tallies");
    equal(rt, asked, (blocks, products), "what was asked for");
}

fn nonce() -> Nonce {
    Nonce::assume_unique_for_key([7; 12])
}

fn seals(
    rt: &impl Abort,
    cipher: &CountingCipher<'_>,
    hash: &CountingHash<'_>,
    aad: Aad<'_>,
    buffer: &mut [u8],
    tallies: (u64, u64),
) -> Result<Tag, Fail>
    requires { hash.now.key.now ≡ aes_cipher cipher.now.key.now zero_block }
{
    let mut work = Work::new();
    let tag = seal_with(cipher, hash, nonce(), aad, buffer, &mut work)?;
    worked(rt, &work, cipher.blocks, hash.products, tallies);
    Ok(tag)
}

fn opens(
    rt: &impl Abort,
    cipher: &CountingCipher<'_>,
    hash: &CountingHash<'_>,
    aad: Aad<'_>,
    tag: Tag,
    buffer: &mut [u8],
    tallies: (u64, u64),
) -> bool
    requires { hash.now.key.now ≡ aes_cipher cipher.now.key.now zero_block }
{
    let mut work = Work::new();
    let opened = open_with(cipher, hash, nonce(), aad, tag, buffer, 0.., &mut work);
    worked(rt, &work, cipher.blocks, hash.products, tallies);
    opened.is_ok()
}

/// Seals, opens with a false tag, and opens, at a message and an AAD of these lengths.
fn work_at(
    rt: &impl Abort,
    alloc: Global,
    key: &aes::Key,
    gcm_key: &gcm::Key,
    lens: (usize, usize),
    tallies: (u64, u64),
) -> Result<(), Fail>
    requires { gcm_key.now ≡ aes_cipher key.now zero_block }
{
    let (blocks, products) = (Cell::new(0), Cell::new(0));
    let cipher = CountingCipher {
        key,
        blocks: &blocks,
    };
    let hash = CountingHash {
        key: gcm_key,
        products: &products,
    };
    let (len, aad_len) = lens;
    let bytes = vec![in alloc; 0; aad_len]?;
    let aad = Aad::from(bytes.as_slice());
    let mut buffer = vec![in alloc; 0; len]?;
    let tag = seals(rt, &cipher, &hash, aad, &mut buffer, tallies)?;
    let zeros = Tag::from([0; 16]);
    let is_opened = opens(rt, &cipher, &hash, aad, zeros, &mut buffer, (1, tallies.1));
    holds(rt, !is_opened, "a false tag");
    let is_opened = opens(rt, &cipher, &hash, aad, tag, &mut buffer, tallies);
    holds(rt, is_opened, "the tag");
    Ok(())
}

/// Returns the cipher blocks and products of sealing or of opening n bytes with a bytes of AAD: ceil(n / 16) + 1 and
/// ceil(a / 16) + ceil(n / 16) + 1 (SP 800-38D section 7.1).
pub(crate) fn work(len: usize, aad_len: usize) -> (u64, u64) {
    let blocks = len.div_ceil(16) as u64;
    let aad_blocks = aad_len.div_ceil(16) as u64;
    (
        blocks.wrapping_add(1),
        aad_blocks.wrapping_add(blocks).wrapping_add(1),
    )
}

// The tallies of the generic bodies are what a counting cipher and a counting hash were asked for.
#[test]
fn work_that_is_asked_for(rt: HostRuntime) -> Result<(), Fail> {
    let key = aes::Key::new(KeyBytes::AES_128(&[7; 16]))?;
    let subkey = key.encrypt_block(ZERO_BLOCK, &mut Work::new());
    let gcm_key = gcm::Key::new(gcm::KeyValue::new(subkey));
    for len in lens(rt.alloc())? {
        let aad_len = len % 41;
        let tallies = work(len, aad_len);
        work_at(&rt, rt.alloc(), &key, &gcm_key, (len, aad_len), tallies)?;
    }
    Ok(())
}
