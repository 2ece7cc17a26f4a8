//! HMAC (RFC 2104): authentication codes by SHA-256 or SHA-384, in one call or under a key that is kept.

ghost use Rattle.std.specs.Prelude.{◌≡◌, ℕ, ◌++◌, ◌<◌, ◌≤◌, ◌↔◌, List, length, map, take, bit_xor, IsTrue};
ghost use Rattle.key_derivation.specs.Hash.{sha_256, sha_384};
ghost use Rattle.key_derivation.specs.Hmac.{hmac, block_key, inner_block};
ghost use Rattle.key_derivation.specs.HmacState.{IsKey};

use crate::hash::{Hash, MAX_BLOCK_LEN};
use aead_ciphers_base::bb;
use sha2::{Digest, Sha256, Sha384};
use std::convert::AsSlice;

/// A key of HMAC, kept as two hashers that have absorbed it, XORed with ipad and with opad (RFC 2104 section 4).
#[derive(Drop)]
pub struct HmacKey<H> {
    inner: H,
    outer: H,
}

impl<H: Hash> HmacKey<H> {
    /// Creates a key from bytes of any length.
    // Not inlined, and neither is `absorb_xored`, so that the C library contains one copy of each per hash function.
    #[inline(never)]
    pub fn new(key: &[u8]) -> Self
        ensures { IsKey H.function H.holds key.now result }
    {
        let block = key_block::<H>(key);
        let block = &block[..H::BLOCK_LEN];
        HmacKey {
            inner: absorb_xored(block, 0x36),
            outer: absorb_xored(block, 0x5c),
        }
    }

    /// Begins a message: returns a hasher, which the caller updates with the message.
    pub fn start(&self) -> H
        ensures { (key : List ℕ) → IsKey H.function H.holds key self.now
            → H.holds result (inner_block H.function key) }
    {
        self.inner.fork()
    }

    /// Returns the authentication code of the message with which the caller has updated `hasher`, a hasher from `start`.
    pub fn finish(&self, hasher: H) -> H::Output
        ensures { (key text : List ℕ) → IsKey H.function H.holds key self.now
            → H.holds «hasher» (inner_block H.function key ++ text)
            → H.Output.items result ≡ hmac H.function key text }
    {
        let mut outer = self.outer.fork();
        outer.update(hasher.finalize());
        outer.finalize()
    }

    /// Returns whether `code` is the authentication code of the message with which the caller has updated `hasher`, a hasher
    /// from `start`.
    ///
    /// A code of another length is never right. One of the same length is compared up to its last byte, wherever the first
    /// difference is.
    pub fn verify(&self, hasher: H, code: &[u8]) -> bool
        ensures { (key text : List ℕ) → IsKey H.function H.holds key self.now
            → H.holds «hasher» (inner_block H.function key ++ text)
            → (IsTrue result ↔ (code.now ≡ hmac H.function key text)) }
    {
        let made = self.finish(hasher);
        bb::verify_slices_are_equal(made.as_slice(), code).is_ok()
    }
}

/// Returns the key, hashed if it is longer than a block, with zeros after it (RFC 2104 section 2, step 1).
fn key_block<H: Hash>(key: &[u8]) -> [u8; MAX_BLOCK_LEN]
    ensures { take H.BLOCK_LEN result ≡ block_key H.function key.now }
{
    let mut block = [0u8; MAX_BLOCK_LEN];
    if is_long::<H>(key) {
        let digest = H::digest(key);
        block[..H::OUTPUT_LEN].copy_from_slice(digest.as_slice());
    } else {
        block[..key.len()].copy_from_slice(key);
    }
    block
}

/// Returns whether a key is longer than a block.
fn is_long<H: Hash>(key: &[u8]) -> bool
    ensures { IsTrue result ↔ (H.BLOCK_LEN < length key.now) }
{
    key.len() > H::BLOCK_LEN
}

/// Returns a hasher that has absorbed the block, each of its bytes XORed with `pad`.
#[inline(never)]
fn absorb_xored<H: Hash>(block: &[u8], pad: u8) -> H
    requires { length block.now ≤ 128 }
    ensures { H.holds result (map (bit_xor pad) block.now) }
{
    let mut padded = [0u8; MAX_BLOCK_LEN];
    'bytes: for i in 0..block.len() {
        padded[i] = pad ^ block[i];
    }
    let mut hasher = H::new();
    hasher.update(&padded[..block.len()]);
    hasher
}

/// Returns the authentication code of a message.
pub fn hmac<H: Hash>(key: &[u8], text: &[u8]) -> H::Output
    ensures { H.Output.items result ≡ hmac H.function key.now text.now }
{
    let key = HmacKey::<H>::new(key);
    let mut hasher = key.start();
    hasher.update(text);
    key.finish(hasher)
}

/// Returns the authentication code of a message by HMAC-SHA-256.
pub fn hmac_sha_256(key: &[u8], text: &[u8]) -> [u8; 32]
    ensures { result ≡ hmac sha_256 key.now text.now }
{
    hmac::<Sha256>(key, text)
}

/// Returns the authentication code of a message by HMAC-SHA-384.
pub fn hmac_sha_384(key: &[u8], text: &[u8]) -> [u8; 48]
    ensures { result ≡ hmac sha_384 key.now text.now }
{
    hmac::<Sha384>(key, text)
}
