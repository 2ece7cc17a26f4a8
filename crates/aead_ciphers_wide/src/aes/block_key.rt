//! AES keys for one block or two at a time: round keys alone, which the cipher by byte permutes reads.

ghost use Rattle.std.specs.Prelude.{◌≡◌};
ghost use Rattle.aead_ciphers_base.specs.Aes.{aes, length_aes};
ghost use Rattle.aead_ciphers_base.specs.KeyBytes.{key_bytes};
ghost use Rattle.aead_ciphers_base.specs.Mask.{aes_mask};
ghost use Rattle.aead_ciphers_wide.specs.WideSchedule.{IsSchedule, key_of};

use super::expand;
use super::permuted::{add_round_key, last_round, round};
use super::round_keys::RoundKeys;
use aead_ciphers_base::aes::{Block, EncryptBlock, KeyBytes, Work};
use aead_ciphers_base::values::Sample;
use std::marker::Model;
use std::simd::u8x16;

/// An expanded AES key for one block at a time: its round keys (FIPS 197 section 5.2).
#[derive(Clone, Drop)]
pub struct BlockKey {
    round_keys: RoundKeys,
    rounds: usize,
}

impl Model for BlockKey {
    ghost use Rattle.std.specs.Prelude.{ℕ, List};
    ghost use Rattle.aead_ciphers_wide.specs.WideSchedule.{key_of, IsSchedule};

    ghost Value = { List ℕ };

    ghost view = { λ key. key_of key.round_keys key.rounds };

    ghost invariant = { λ key. IsSchedule key.round_keys key.rounds };
}

impl BlockKey {
    /// Expands a key of 16 or 32 bytes (FIPS 197 section 5.2).
    pub fn new(bytes: KeyBytes<'_>) -> Self
        ensures { result ≡ key_bytes bytes.entry }
    {
        let mut round_keys = [[0; 16]; 15];
        let rounds = expand(&mut round_keys, bytes);
        BlockKey { round_keys, rounds }
    }

    /// Computes the header protection mask of a sample (RFC 9001 section 5.4.3): 16 bytes in, 5 bytes out.
    pub fn new_mask(&self, sample: Sample) -> [u8; 5]
        ensures { result ≡ aes_mask self.now sample }
    {
        BlockKeyRef {
            round_keys: &self.round_keys,
            rounds: self.rounds,
        }
        .new_mask(sample)
    }
}

/// A `BlockKey` that borrows its round keys, for example from a key that encrypts eight blocks at a time.
#[derive(Drop)]
pub struct BlockKeyRef<'k> {
    round_keys: &'k RoundKeys,
    rounds: usize,
}

impl<'k> Model for BlockKeyRef<'k> {
    ghost use Rattle.std.specs.Prelude.{ℕ, List};
    ghost use Rattle.aead_ciphers_wide.specs.WideSchedule.{key_of, IsSchedule};

    ghost Value = { List ℕ };

    ghost view = { λ key. key_of key.round_keys.now key.rounds };

    ghost invariant = { λ key. IsSchedule key.round_keys.now key.rounds };
}

impl<'k> BlockKeyRef<'k> {
    /// Creates a key from round keys and the number of rounds, as `expand` writes and returns them.
    pub fn new(round_keys: &'k RoundKeys, rounds: usize) -> Self
        requires { IsSchedule round_keys.now rounds }
        ensures { result ≡ key_of round_keys.now rounds }
    {
        BlockKeyRef { round_keys, rounds }
    }

    /// Computes the header protection mask of a sample (RFC 9001 section 5.4.3): 16 bytes in, 5 bytes out.
    #[tactic(auto, unfolding(aead_ciphers_base::specs::Mask::aes_mask))]
    pub fn new_mask(&self, sample: Sample) -> [u8; 5]
        ensures { result ≡ aes_mask self.now sample }
    {
        let block = self.encrypt_one(sample);
        let mut mask = [0; 5];
        mask.copy_from_slice(&block[..5]);
        mask
    }

    /// Encrypts a block (FIPS 197 section 5.1). No `Work` counts it.
    pub(crate) fn encrypt_one(&self, block: Block) -> Block
        ensures { result ≡ aes self.now block }
    {
        let round_keys = self.round_keys;
        let rounds = self.rounds;
        let mut state = add_round_key(u8x16::from_array(block), &round_keys[0]);
        for n in 1..rounds {
            state = round(state, &round_keys[n]);
        }
        last_round(state, &round_keys[rounds]).to_array()
    }

    /// Encrypts two blocks, with a round of each in turn, since a round waits for the one before it. No `Work` counts them.
    pub(crate) fn encrypt_two(&self, first: Block, second: Block) -> (Block, Block)
        ensures first { result.0 ≡ aes self.now first }
        ensures second { result.1 ≡ aes self.now second }
    {
        let round_keys = self.round_keys;
        let rounds = self.rounds;
        let mut one = add_round_key(u8x16::from_array(first), &round_keys[0]);
        let mut two = add_round_key(u8x16::from_array(second), &round_keys[0]);
        for n in 1..rounds {
            one = round(one, &round_keys[n]);
            two = round(two, &round_keys[n]);
        }
        let one = last_round(one, &round_keys[rounds]);
        let two = last_round(two, &round_keys[rounds]);
        (one.to_array(), two.to_array())
    }
}

impl<'k> EncryptBlock for BlockKeyRef<'k> {
    ghost cipher = { λ key block. aes key block };

    ghost length_cipher = { λ key block _. length_aes key block };

    fn encrypt_block(&self, block: Block, work: &mut Work) -> Block {
        work.add_block();
        self.encrypt_one(block)
    }
}
