//! `WiderWord`, a number of 256 bits in a vector: a plane of sixteen AES blocks.

ghost use Rattle.std.specs.Prelude.{◌≡◌, ◌+◌, ◌*◌, ◌^◌, ℕ, bit_xor, bit_and};
ghost use Rattle.aead_ciphers_wide.specs.WidePlanes.{place_of_sixteen, place_of_sixteen_within};

use super::Word;
use crate::lanes::Lanes;
use aead_ciphers_base::aes::Plane;
use std::marker::Model;
use std::ops::{BitAnd, BitXor};
use std::simd::u64x4;

/// A number of 256 bits.
#[derive(Clone, Copy)]
pub struct WiderWord {
    lanes: u64x4,
}

impl Model for WiderWord {
    ghost use Rattle.std.specs.Prelude.{ℕ, ◌^◌, ◌≡◌, ◌<◌, length};
    ghost use Rattle.std.proofs.Common.{ap};
    ghost use Rattle.std.specs.Simd.Lanes.{number_l, digits_l, Each1};
    ghost use Rattle.aead_ciphers_wide.specs.Word.{digits_back};

    ghost Value = { ℕ };

    ghost view = { λ word. number_l (2 ^ 64) word.lanes };

    ghost invariant = { λ word. (length word.lanes ≡ 4) × Each1 (λ x. x < 2 ^ 64) word.lanes };

    ghost inverse = { λ n. record { lanes = digits_l (2 ^ 64) 4 n } };

    ghost inverse_ok = { λ word h. ap (λ lanes. record { lanes = lanes }) (digits_back 4 word.lanes h.0 h.1) };
}

impl WiderWord {
    /// Returns the number with these halves.
    #[inline(always)]
    pub fn new(low: Word, high: Word) -> Self
        ensures { result ≡ high * 2 ^ 128 + low }
    {
        WiderWord {
            lanes: low.lanes.shuffle(high.lanes, [0, 1, 2, 3]),
        }
    }

    /// Returns the two halves, the least significant first.
    #[inline(always)]
    pub fn halves(self) -> (Word, Word)
        ensures { self ≡ result.1 * 2 ^ 128 + result.0 }
    {
        let low = Word {
            lanes: self.lanes.extract::<0, 2>(),
        };
        let high = Word {
            lanes: self.lanes.extract::<2, 2>(),
        };
        (low, high)
    }
}

impl BitXor<WiderWord> for WiderWord {
    type Output = WiderWord;

    ghost bitxor_gives = { λ a b result. result ≡ bit_xor a b };

    #[inline(always)]
    fn bitxor(self, rhs: WiderWord) -> WiderWord {
        WiderWord {
            lanes: self.lanes ^ rhs.lanes,
        }
    }
}

impl BitAnd<WiderWord> for WiderWord {
    type Output = WiderWord;

    ghost bitand_gives = { λ a b result. result ≡ bit_and a b };

    #[inline(always)]
    fn bitand(self, rhs: WiderWord) -> WiderWord {
        WiderWord {
            lanes: self.lanes & rhs.lanes,
        }
    }
}

impl Plane for WiderWord {
    ghost number = { λ word. word };

    ghost width = { 256 };

    ghost place = { place_of_sixteen };

    ghost place_within = { place_of_sixteen_within };

    ghost can_xor = { λ a b. tt };

    ghost can_and = { λ a b. tt };

    ghost xor_is = { λ a b c h. h };

    ghost and_is = { λ a b c h. h };

    #[inline(always)]
    fn ones() -> WiderWord {
        WiderWord::splat(u64::MAX)
    }

    #[inline(always)]
    fn rows_shifted(self) -> WiderWord {
        let (low, high) = self.halves();
        WiderWord::new(low.rows_shifted(), high.rows_shifted())
    }

    #[inline(always)]
    fn one_below(self) -> WiderWord {
        let (low, high) = self.halves();
        WiderWord::new(low.one_below(), high.one_below())
    }

    #[inline(always)]
    fn two_below(self) -> WiderWord {
        let (low, high) = self.halves();
        WiderWord::new(low.two_below(), high.two_below())
    }
}

impl Lanes for WiderWord {
    #[inline(always)]
    fn splat(lane: u64) -> WiderWord {
        WiderWord {
            lanes: u64x4::splat(lane),
        }
    }

    #[inline(always)]
    fn lanes_left(self, n: u32) -> WiderWord {
        WiderWord {
            lanes: self.lanes << u64x4::splat(u64::from(n)),
        }
    }

    #[inline(always)]
    fn lanes_right(self, n: u32) -> WiderWord {
        WiderWord {
            lanes: self.lanes >> u64x4::splat(u64::from(n)),
        }
    }
}
