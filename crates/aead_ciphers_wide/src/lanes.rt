//! The trait `Lanes`, of words that consist of lanes of 64 bits, each of which is shifted by itself.

ghost use Rattle.std.specs.Prelude.{◌≡◌, ◌<◌, ◌*◌, ◌/◌, ◌%◌, ◌^◌, ℕ};
ghost use Rattle.aead_ciphers_wide.specs.Word.{lane_of};

use aead_ciphers_base::aes::Plane;

/// A word of lanes of 64 bits.
pub trait Lanes: Plane {
    /// Returns the word all of whose lanes are `lane`.
    fn splat(lane: u64) -> Self
        ensures { (j : ℕ) → j < Self.width / 64 → lane_of j (Self.number result) ≡ lane };

    /// Shifts each lane to the left.
    fn lanes_left(self, n: u32) -> Self
        requires { n < 64 }
        ensures { (j : ℕ) → j < Self.width / 64
            → lane_of j (Self.number result) ≡ lane_of j (Self.number self) * 2 ^ n % 2 ^ 64 };

    /// Shifts each lane to the right.
    fn lanes_right(self, n: u32) -> Self
        requires { n < 64 }
        ensures { (j : ℕ) → j < Self.width / 64
            → lane_of j (Self.number result) ≡ lane_of j (Self.number self) / 2 ^ n };
}
