//! The AES key schedule (FIPS 197 section 5.2), with SubWord computed on planes.

ghost use Rattle.std.specs.Prelude.{◌≡◌, ◌+◌, ◌-◌, ◌*◌, ◌/◌, ◌%◌, ◌<◌, ◌≤◌, ◌⊎◌, ℕ, length, take, slice_index};
ghost use Rattle.aead_ciphers_base.specs.Bytes.{◌⊕◌};
ghost use Rattle.aead_ciphers_base.specs.Aes.{rot_word, sub_word, word_at, next_word, key_words, power_of_x};
ghost use Rattle.aead_ciphers_base.specs.Planes.{plane_byte};
ghost use Rattle.aead_ciphers_base.specs.KeySchedule.{HoldsWords};

use super::ZERO_BLOCK;
use super::pack::{gather, pack, spread};
use super::planes::{Planes, sub_planes};

/// The first byte of each round constant Rcon.
const ROUND_CONSTANTS: [u8; 10] = [0x01, 0x02, 0x04, 0x08, 0x10, 0x20, 0x40, 0x80, 0x1b, 0x36];

#[tactic(auto, using(crate::proofs::XorLemmas::xor_by_index))]
fn add_words(a: [u8; 4], b: [u8; 4]) -> [u8; 4]
    ensures { result ≡ a ⊕ b }
{
    [a[0] ^ b[0], a[1] ^ b[1], a[2] ^ b[2], a[3] ^ b[3]]
}

#[tactic(auto, unfolding(crate::specs::Aes::rot_word))]
fn rot_word(a: [u8; 4]) -> [u8; 4]
    ensures { result ≡ rot_word a }
{
    [a[1], a[2], a[3], a[0]]
}

/// Applies the S-box to each byte of a word, on planes that hold these bytes in every eighth of their 64 places.
fn sub_word(a: [u8; 4]) -> [u8; 4]
    ensures { result ≡ sub_word a }
{
    let mut planes = spread(u64::from(u32::from_le_bytes(a)));
    sub_planes(&mut planes);
    let [b0, b1, b2, b3, _, _, _, _] = gather(planes).to_le_bytes();
    [b0, b1, b2, b3]
}

#[tactic(auto, using(crate::proofs::KeySchedule::round_constant_is))]
fn round_constant(n: usize) -> u8
    requires { n < 10 }
    ensures { result ≡ power_of_x n }
{
    ROUND_CONSTANTS[n]
}

#[tactic(auto, using(crate::proofs::KeySchedule::next_word_turned, crate::proofs::KeySchedule::next_word_middle, crate::proofs::KeySchedule::next_word_plain))]
fn next_word(words: &[[u8; 4]], i: usize, nk: usize) -> [u8; 4]
    requires positive { 0 < nk }
    requires from { nk ≤ i }
    requires below { i < 11 * nk }
    requires within { i ≤ length words.now }
    ensures { result ≡ next_word nk words.now i }
{
    let last = words[i - 1];
    let turned = if i % nk == 0 {
        add_words(
            sub_word(rot_word(last)),
            [round_constant(i / nk - 1), 0, 0, 0],
        )
    } else if nk > 6 && i % nk == 4 {
        sub_word(last)
    } else {
        last
    };
    add_words(words[i - nk], turned)
}

/// Expands a key of 16 or 32 bytes (FIPS 197 section 5.2). The first 44 or 60 words of the result are its key schedule.
#[tactic(auto, using(crate::proofs::KeySchedule::first_word_step, crate::proofs::KeySchedule::first_words_end))]
pub fn expand(key: &[u8]) -> [[u8; 4]; 60]
    requires { (length key.now ≡ 16) ⊎ (length key.now ≡ 32) }
    ensures { let nk = length key.now / 4 in
        take (4 * (nk + 7)) result ≡ key_words nk key.now (4 * (nk + 7) - nk) }
{
    let nk = key.len() / 4;
    let mut words = [[0; 4]; 60];
    for i in 0..nk {
        words[i] = [key[4 * i], key[4 * i + 1], key[4 * i + 2], key[4 * i + 3]];
    }
    for n in nk..4 * (nk + 7) {
        words[n] = next_word(&words, n, nk);
    }
    words
}

/// Packs a round key into each of the four blocks.
fn pack_round_key(words: &[[u8; 4]], round: usize) -> Planes
    requires { 4 * round + 4 ≤ length words.now }
    ensures { (p : ℕ) → p < 64
        → plane_byte result p ≡ slice_index (word_at words.now (4 * round + p % 16 / 4)) (p % 4) }
{
    let mut block = ZERO_BLOCK;
    for k in 0..16 {
        block[k] = words[4 * round + k / 4][k % 4];
    }
    pack([block, block, block, block])
}

/// Writes the round keys that consist of `words`, four words each.
pub fn write_round_keys(planes: &mut [Planes; 15], words: &[[u8; 4]])
    requires { length words.now ≤ 60 }
    ensures { HoldsWords planes.new words.now (length words.now / 4) }
{
    for j in 0..words.len() / 4 {
        planes[j] = pack_round_key(words, j);
    }
}
