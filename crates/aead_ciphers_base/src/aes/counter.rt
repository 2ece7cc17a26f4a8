//! Counter blocks of 12-byte nonces (SP 800-38D sections 6.2 and 7.1).

ghost use Rattle.std.specs.Prelude.{◌≡◌, ◌<◌, ℕ, ◌+◌, List, [], length, slice_index_or};
ghost use Rattle.aead_ciphers_base.specs.CounterMode.{IsCounter};

use crate::aes::{BLOCK_LEN, Block};
use crate::values::{NONCE_LEN, Nonce};
use std::marker::Model;

/// A counter block: a nonce of 12 bytes, and a number modulo 2^32 in four big-endian bytes.
#[derive(Drop)]
pub struct Counter {
    block: Block,
}

impl Model for Counter {
    ghost use Rattle.std.specs.Prelude.{ℕ, List};

    ghost Value = { List ℕ };

    ghost view = { λ counter. counter.block };
}

impl Counter {
    /// Creates counter block 1 of the nonce, the pre-counter block J0 (SP 800-38D section 7.1).
    #[tactic(auto, using(crate::proofs::CounterLemmas::counter_one))]
    pub fn one(nonce: Nonce) -> Self
        ensures { IsCounter result nonce 1 }
    {
        let mut block = [0; BLOCK_LEN];
        block[..NONCE_LEN].copy_from_slice(nonce.as_ref());
        block[BLOCK_LEN - 1] = 1;
        Counter { block }
    }

    /// Adds one to the number (inc32, SP 800-38D section 6.2), and returns the previous counter block.
    pub fn increment(&mut self) -> Iv
        ensures iv { result ≡ self.old }
        ensures counter { (nonce : List ℕ) (k : ℕ) → IsCounter self.old nonce k →
            IsCounter self.new nonce (k + 1) }
    {
        let iv = Iv { block: self.block };
        self.increment_by_less_safe(1);
        iv
    }

    /// Adds `increment_by` to the number, modulo 2^32. Using no counter block twice under a key is the
    /// caller's responsibility.
    pub fn increment_by_less_safe(&mut self, increment_by: u32)
        ensures { (nonce : List ℕ) (k : ℕ) → IsCounter self.old nonce k →
            IsCounter self.new nonce (k + increment_by) }
    {
        self.block = self.plus(increment_by);
    }

    /// Returns the counter block with `more` added to its number, modulo 2^32.
    pub fn plus(&self, more: u32) -> Block
        ensures { (nonce : List ℕ) (k : ℕ) → IsCounter self.now nonce k →
            IsCounter result nonce (k + more) }
    {
        let mut block = self.block;
        let [.., n0, n1, n2, n3] = block;
        let number = u32::from_be_bytes([n0, n1, n2, n3]);
        let next = number.wrapping_add(more).to_be_bytes();
        block[NONCE_LEN..].copy_from_slice(&next);
        block
    }

    /// Returns the counter block and the next three.
    pub(crate) fn next_four(&self) -> [Block; 4]
        ensures { (nonce : List ℕ) (k : ℕ) → IsCounter self.now nonce k → (i : ℕ) → i < 4 →
            IsCounter (slice_index_or result i []) nonce (k + i) }
    {
        [self.plus(0), self.plus(1), self.plus(2), self.plus(3)]
    }

    /// Returns the 16 bytes, which are the counter block of some nonce and number.
    pub fn as_ref(&self) -> &Block
        ensures bytes { result.now ≡ self.now }
        ensures counter { (nonce : List ℕ) × (k : ℕ) × IsCounter self.now nonce k }
    {
        is_some_counter(&self.block);
        &self.block
    }
}

/// States that every block of 16 bytes is the counter block of some nonce and number.
#[tactic(auto, using(crate::proofs::CounterLemmas::counter_exists))]
fn is_some_counter(block: &[u8])
    requires { length block.now ≡ 16 }
    ensures { (nonce : List ℕ) × (k : ℕ) × IsCounter block.now nonce k }
{}

/// A counter block of 16 bytes that is used only once.
#[derive(Drop)]
pub struct Iv {
    block: Block,
}

impl Model for Iv {
    ghost use Rattle.std.specs.Prelude.{ℕ, List};

    ghost Value = { List ℕ };

    ghost view = { λ iv. iv.block };
}

/// Consumes a counter, and returns its counter block.
impl From<Counter> for Iv {
    ghost from_gives = { λ counter iv. iv ≡ counter };

    fn from(counter: Counter) -> Self {
        let Counter { block } = counter;
        Iv { block }
    }
}

impl Iv {
    /// Consumes the counter block, and returns its 16 bytes.
    pub fn into_block_less_safe(self) -> Block
        ensures { result ≡ self }
    {
        self.block
    }
}
