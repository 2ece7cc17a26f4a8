//! Counter blocks as the bytes of words, for many blocks at a time.

ghost use Rattle.std.specs.Prelude.{◌≡◌, ◌<◌, ◌+◌, ◌/◌, ◌%◌, ℕ, List, slice_index, take};
ghost use Rattle.std.specs.Int.{to_le_bytes, w128};
ghost use Rattle.aead_ciphers_base.specs.CounterMode.{IsCounter, counter_block};
ghost use Rattle.aead_ciphers_wide.specs.Word.{half_of};

use crate::word::{WiderWord, Word};
use aead_ciphers_base::aes::{Block, Counter};
use std::simd::{u8x16, u32x4};

/// Returns the words whose bytes are the counter block and the next seven.
#[inline(always)]
pub fn counters(counter: &Counter) -> [Word; 8]
    ensures { (nonce : List ℕ) (k : ℕ) → IsCounter counter.now nonce k → (i : ℕ) → i < 8
        → IsCounter (to_le_bytes w128 (slice_index result i)) nonce (k + i) }
{
    let block = *counter.as_ref();
    let number = u32::from_be_bytes([block[12], block[13], block[14], block[15]]);
    [
        counter_more(block, number, 0),
        counter_more(block, number, 1),
        counter_more(block, number, 2),
        counter_more(block, number, 3),
        counter_more(block, number, 4),
        counter_more(block, number, 5),
        counter_more(block, number, 6),
        counter_more(block, number, 7),
    ]
}

/// Returns the counter block and the next fifteen, as the bytes of the halves of eight words.
#[inline(always)]
pub fn sixteen_counters(counter: &Counter) -> [WiderWord; 8]
    ensures { (nonce : List ℕ) (k : ℕ) → IsCounter counter.now nonce k → (i : ℕ) → i < 16
        → IsCounter (to_le_bytes w128 (half_of (i % 2) (slice_index result (i / 2)))) nonce (k + i) }
{
    let block = *counter.as_ref();
    let number = u32::from_be_bytes([block[12], block[13], block[14], block[15]]);
    [
        two_counters(block, number, 0, 1),
        two_counters(block, number, 2, 3),
        two_counters(block, number, 4, 5),
        two_counters(block, number, 6, 7),
        two_counters(block, number, 8, 9),
        two_counters(block, number, 10, 11),
        two_counters(block, number, 12, 13),
        two_counters(block, number, 14, 15),
    ]
}

/// Returns two counter blocks, `low` and `high` after `block`, as the bytes of the halves of one word.
#[inline(always)]
fn two_counters(block: Block, number: u32, low: u32, high: u32) -> WiderWord
    ensures low { to_le_bytes w128 (half_of 0 result) ≡ counter_block (take 12 block) (number + low) }
    ensures high { to_le_bytes w128 (half_of 1 result) ≡ counter_block (take 12 block) (number + high) }
{
    WiderWord::new(
        counter_more(block, number, low),
        counter_more(block, number, high),
    )
}

/// Returns the counter block `more` after `block`, as the bytes of a word.
#[inline(always)]
fn counter_more(block: Block, number: u32, more: u32) -> Word
    ensures { to_le_bytes w128 result ≡ counter_block (take 12 block) (number + more) }
{
    let numbers = (u32x4::splat(number) + u32x4::from_array([0, 0, 0, more])).to_le_bytes();
    Word::from_bytes(u8x16::from_array(block).shuffle(
        numbers,
        [0, 1, 2, 3, 4, 5, 6, 7, 8, 9, 10, 11, 31, 30, 29, 28],
    ))
}
