//! `Word`, a number of 128 bits in a vector: a plane of eight AES blocks, or a block of GHASH.

ghost use Rattle.std.specs.Prelude.{◌≡◌, ◌<◌, ◌+◌, ◌*◌, ◌/◌, ◌^◌, ℕ, bit_xor, bit_and, slice_index};
ghost use Rattle.std.specs.Int.{bit_at, to_le_bytes, w128};
ghost use Rattle.aead_ciphers_wide.specs.WidePlanes.{place_of_eight, place_of_eight_within};

use crate::lanes::Lanes;
use crate::permute::look_up;
use aead_ciphers_base::aes::{Block, Plane};
use std::marker::Model;
use std::ops::{BitAnd, BitXor};
use std::simd::{u8x16, u64x2};

mod wider;

pub use wider::WiderWord;

/// A number of 128 bits.
#[derive(Clone, Copy)]
pub struct Word {
    lanes: u64x2,
}

impl Model for Word {
    ghost use Rattle.std.specs.Prelude.{ℕ, ◌^◌, ◌≡◌, ◌<◌, length};
    ghost use Rattle.std.proofs.Common.{ap};
    ghost use Rattle.std.specs.Simd.Lanes.{number_l, digits_l, Each1};
    ghost use Rattle.aead_ciphers_wide.specs.Word.{digits_back};

    ghost Value = { ℕ };

    ghost view = { λ word. number_l (2 ^ 64) word.lanes };

    ghost invariant = { λ word. (length word.lanes ≡ 2) × Each1 (λ x. x < 2 ^ 64) word.lanes };

    ghost inverse = { λ n. record { lanes = digits_l (2 ^ 64) 2 n } };

    ghost inverse_ok = { λ word h. ap (λ lanes. record { lanes = lanes }) (digits_back 2 word.lanes h.0 h.1) };
}

impl Word {
    /// Returns the number with these lanes, the least significant first.
    #[inline(always)]
    pub fn new(low: u64, high: u64) -> Self
        ensures { result ≡ high * 2 ^ 64 + low }
    {
        Word {
            lanes: u64x2::from_array([low, high]),
        }
    }

    /// Returns the two lanes, the least significant first.
    #[inline(always)]
    pub fn lanes(self) -> (u64, u64)
        ensures { self ≡ result.1 * 2 ^ 64 + result.0 }
    {
        let [low, high] = self.lanes.to_array();
        (low, high)
    }

    /// Returns the block of the bytes, the least significant first.
    #[inline(always)]
    pub fn to_block(self) -> Block
        ensures { result ≡ to_le_bytes w128 self }
    {
        self.bytes().to_array()
    }

    /// Returns the number with these bytes, the least significant first.
    #[inline(always)]
    pub fn from_bytes(bytes: u8x16) -> Self
        ensures { to_le_bytes w128 result ≡ bytes }
    {
        Word {
            lanes: u64x2::from_le_bytes(bytes),
        }
    }

    /// Returns the bytes, the least significant first.
    #[inline(always)]
    pub fn bytes(self) -> u8x16
        ensures { result ≡ to_le_bytes w128 self }
    {
        self.lanes.to_le_bytes()
    }

    /// Returns the number whose byte `i` is 255 if bit `bit` of digit `i` is one, and 0 if it is zero. The digits are in base 16.
    #[inline(always)]
    pub fn filled(digits: u8x16, bit: usize) -> Self
        requires bit { bit < 4 }
        requires digits { (i : ℕ) → i < 16 → slice_index digits i < 16 }
        ensures { (p : ℕ) → p < 128 → bit_at result p ≡ bit_at (slice_index digits (p / 8)) bit }
    {
        Word::from_bytes(look_up(FILLED[bit], digits))
    }
}

/// A table of 16 bytes for each bit of a digit in base 16, the lowest bit first. The byte of a digit is 255 if the digit has
/// this bit, and 0 if it doesn't.
///
/// A look-up in such a table is faster than a comparison of each byte with the bit, for which LLVM takes a comparison of signed
/// bytes: that took 1.4 times as many instructions on x86-64-v2, and equally many on x86-64-v3 and ARM64.
const FILLED: [[u8; 16]; 4] = [
    [
        0, 255, 0, 255, 0, 255, 0, 255, 0, 255, 0, 255, 0, 255, 0, 255,
    ],
    [
        0, 0, 255, 255, 0, 0, 255, 255, 0, 0, 255, 255, 0, 0, 255, 255,
    ],
    [
        0, 0, 0, 0, 255, 255, 255, 255, 0, 0, 0, 0, 255, 255, 255, 255,
    ],
    [
        0, 0, 0, 0, 0, 0, 0, 0, 255, 255, 255, 255, 255, 255, 255, 255,
    ],
];

impl BitXor<Word> for Word {
    type Output = Word;

    ghost bitxor_gives = { λ a b result. result ≡ bit_xor a b };

    #[inline(always)]
    fn bitxor(self, rhs: Word) -> Word {
        Word {
            lanes: self.lanes ^ rhs.lanes,
        }
    }
}

impl BitAnd<Word> for Word {
    type Output = Word;

    ghost bitand_gives = { λ a b result. result ≡ bit_and a b };

    #[inline(always)]
    fn bitand(self, rhs: Word) -> Word {
        Word {
            lanes: self.lanes & rhs.lanes,
        }
    }
}

impl Plane for Word {
    ghost number = { λ word. word };

    ghost width = { 128 };

    ghost place = { place_of_eight };

    ghost place_within = { place_of_eight_within };

    ghost can_xor = { λ a b. tt };

    ghost can_and = { λ a b. tt };

    ghost xor_is = { λ a b c h. h };

    ghost and_is = { λ a b c h. h };

    #[inline(always)]
    fn ones() -> Word {
        Word::splat(u64::MAX)
    }

    #[inline(always)]
    fn rows_shifted(self) -> Word {
        Word::from_bytes(
            self.bytes()
                .swizzle([0, 5, 10, 15, 4, 9, 14, 3, 8, 13, 2, 7, 12, 1, 6, 11]),
        )
    }

    #[inline(always)]
    fn one_below(self) -> Word {
        Word::from_bytes(
            self.bytes()
                .swizzle([1, 2, 3, 0, 5, 6, 7, 4, 9, 10, 11, 8, 13, 14, 15, 12]),
        )
    }

    #[inline(always)]
    fn two_below(self) -> Word {
        Word::from_bytes(
            self.bytes()
                .swizzle([2, 3, 0, 1, 6, 7, 4, 5, 10, 11, 8, 9, 14, 15, 12, 13]),
        )
    }
}

impl Lanes for Word {
    #[inline(always)]
    fn splat(lane: u64) -> Word {
        Word {
            lanes: u64x2::splat(lane),
        }
    }

    #[inline(always)]
    fn lanes_left(self, n: u32) -> Word {
        Word {
            lanes: self.lanes << u64x2::splat(u64::from(n)),
        }
    }

    #[inline(always)]
    fn lanes_right(self, n: u32) -> Word {
        Word {
            lanes: self.lanes >> u64x2::splat(u64::from(n)),
        }
    }
}
