//! `look_up`, a byte permute: it replaces each byte of a vector by the byte of a table of 16 bytes to which it points.

ghost use Rattle.std.specs.Prelude.{◌≡◌, ◌<◌, ◌≤◌, ◌⊎◌, ℕ, map, slice_index};

use std::simd::u8x16;

/// Returns the bytes of `table` at `places`, and 0 for each place from 128 on. No memory is read at a place.
#[inline(always)]
pub(crate) fn look_up(table: [u8; 16], places: u8x16) -> u8x16
    requires { (i : ℕ) → i < 16 → (slice_index places i < 16) ⊎ (128 ≤ slice_index places i) }
    ensures { result ≡ map (slice_index table) places }
{
    u8x16::from_array(table).swizzle_dyn(places)
}
