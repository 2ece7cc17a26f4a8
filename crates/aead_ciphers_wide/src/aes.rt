//! AES (FIPS 197), of eight or sixteen blocks on bit planes, and of one block or two by byte permutes, and its counter mode
//! (SP 800-38D section 6.5).
//!
//! Eight planes of 128 bits hold eight blocks: bit `8 * byte + block` of plane `b` is bit `b` of that byte. Eight planes of 256
//! bits hold sixteen: their halves are planes of 128 bits, of the blocks with even numbers and of those with odd ones.

ghost use Rattle.std.specs.Prelude.{◌≡◌, ◌+◌, IsOk, IfOk};
ghost use Rattle.aead_ciphers_base.specs.Aes.{aes, length_aes};
ghost use Rattle.aead_ciphers_base.specs.KeyBytes.{key_bytes};
ghost use Rattle.aead_ciphers_base.specs.Mask.{aes_mask};
ghost use Rattle.aead_ciphers_wide.specs.WideSchedule.{AreZerosAfter, HoldsPlanes, IsSchedule, key_of};
ghost use Rattle.aead_ciphers_wide.specs.Width.{width_bits};

use aead_ciphers_base::aes::{
    Block, Counter, EncryptBlock, EncryptCtr32, KeyBytes, Overlapping, Work,
};
use aead_ciphers_base::error::Unspecified;
use aead_ciphers_base::values::Sample;
use std::marker::Model;

mod bit_sliced;
mod block_key;
mod counters;
mod ctr32;
mod key_schedule;
mod pack_eight;
mod pack_sixteen;
mod permuted;
mod round_keys;
mod transpose;

pub use block_key::{BlockKey, BlockKeyRef};
pub(crate) use ctr32::BATCH_LEN;
pub(crate) use round_keys::joined;
pub use round_keys::{RoundKeys, RoundPlanes, write_planes};

/// The width of the planes on which a key encrypts batches of blocks. A plane holds one bit of every byte of these blocks. No
/// result depends on the width, so no contract says which width a key has, except that of `ExpandedKey::expand_with_width`: a key
/// of another width would only be slower.
///
/// # Examples
///
/// ```
/// use deerlapse::aes_gcm::{ExpandedKey, GcmKey, KeyBytes, Width, Work};
///
/// let bytes = [7; 16]; // not a real key
/// let mut key = ExpandedKey::zeros();
/// key.expand_with_width(KeyBytes::AES_128(&bytes), Width::Bits256, &mut Work::new());
/// assert_eq!(key.width, Width::Bits256.bits());
/// ```
#[derive(Clone, Copy)]
pub enum Width {
    /// Eight blocks on planes of 128 bits. The faster where vectors have 128 bits, such as SSE2 and NEON.
    Bits128,
    /// Sixteen blocks on planes of 256 bits. The faster where vectors have 256 bits, such as AVX2.
    Bits256,
}

/// The number of bits for planes of 256 bits. Any other number means planes of 128 bits.
const PLANES_OF_256_BITS: u32 = 256;

impl Width {
    /// Returns the number of bits.
    pub fn bits(self) -> u32
        ensures { result ≡ width_bits self }
    {
        match self {
            Width::Bits128 => 128,
            Width::Bits256 => PLANES_OF_256_BITS,
        }
    }
}

/// An expanded AES key: its round keys (FIPS 197 section 5.2), and the planes that hold each in all eight blocks.
#[derive(Clone, Drop)]
pub struct Key {
    planes: RoundPlanes,
    // Between the arrays, since the compiler copies two that are next to each other as one, by way of the stack.
    rounds: u32,
    width: u32,
    round_keys: RoundKeys,
}

impl Model for Key {
    ghost use Rattle.std.specs.Prelude.{ℕ, ◌+◌, List};
    ghost use Rattle.aead_ciphers_wide.specs.WideSchedule.{HoldsPlanes, IsSchedule, key_of};

    ghost Value = { List ℕ };

    ghost view = { λ key. key_of key.round_keys key.rounds };

    ghost invariant = { λ key. IsSchedule key.round_keys key.rounds
        × HoldsPlanes key.planes key.round_keys (key.rounds + 1) };
}

impl Key {
    /// Expands a key of 16 or 32 bytes (FIPS 197 section 5.2), for planes of 128 bits. Never fails. The contract doesn't say the
    /// width.
    pub fn new(bytes: KeyBytes<'_>) -> Result<Key, Unspecified>
        ensures accepted { IsOk result }
        ensures made { IfOk result (λ key. key ≡ key_bytes bytes.entry) }
    {
        let mut round_keys = [[0; 16]; 15];
        let rounds = expand(&mut round_keys, bytes);
        let mut planes = [[0; 16]; 15];
        write_planes(&mut planes, &round_keys, rounds);
        Ok(Key {
            planes,
            rounds: rounds as u32,
            width: Width::Bits128.bits(),
            round_keys,
        })
    }

    /// Expands a key of 16 or 32 bytes (FIPS 197 section 5.2), for planes of this width. Never fails. The contract doesn't say
    /// the width.
    pub fn new_with_width(bytes: KeyBytes<'_>, width: Width) -> Result<Key, Unspecified>
        ensures accepted { IsOk result }
        ensures made { IfOk result (λ key. key ≡ key_bytes bytes.entry) }
    {
        // The body of `new` once more, since a call of one from the other copies both arrays.
        let mut round_keys = [[0; 16]; 15];
        let rounds = expand(&mut round_keys, bytes);
        let mut planes = [[0; 16]; 15];
        write_planes(&mut planes, &round_keys, rounds);
        Ok(Key {
            planes,
            rounds: rounds as u32,
            width: width.bits(),
            round_keys,
        })
    }

    /// Borrows the key as a `KeyRef`.
    pub fn as_key_ref(&self) -> KeyRef<'_>
        ensures { result ≡ self.now }
    {
        KeyRef {
            planes: &self.planes,
            round_keys: &self.round_keys,
            rounds: self.rounds as usize,
            width: self.width,
        }
    }

    /// Computes the header protection mask of a sample (RFC 9001 section 5.4.3): 16 bytes in, 5 bytes out.
    pub fn new_mask(&self, sample: Sample) -> [u8; 5]
        ensures { result ≡ aes_mask self.now sample }
    {
        self.as_key_ref().new_mask(sample)
    }
}

/// Expands a key of 16 or 32 bytes (FIPS 197 section 5.2): writes its round keys to `round_keys`, and zeros after them, and
/// returns the number of its rounds, 10 or 14.
pub fn expand(round_keys: &mut RoundKeys, bytes: KeyBytes<'_>) -> usize
    ensures schedule { IsSchedule round_keys.new result }
    ensures bytes { key_of round_keys.new result ≡ key_bytes bytes.entry }
    ensures unused { AreZerosAfter round_keys.new result }
{
    let key = bytes.as_slice();
    let rounds = key.len() / 4 + 6;
    key_schedule::expand(round_keys, key);
    rounds
}

/// An expanded AES key that borrows its round keys, for example from memory that the caller owns.
#[derive(Drop)]
pub struct KeyRef<'k> {
    planes: &'k RoundPlanes,
    round_keys: &'k RoundKeys,
    rounds: usize,
    width: u32,
}

impl<'k> Model for KeyRef<'k> {
    ghost use Rattle.std.specs.Prelude.{ℕ, ◌+◌, List};
    ghost use Rattle.aead_ciphers_wide.specs.WideSchedule.{HoldsPlanes, IsSchedule, key_of};

    ghost Value = { List ℕ };

    ghost view = { λ key. key_of key.round_keys.now key.rounds };

    ghost invariant = { λ key. IsSchedule key.round_keys.now key.rounds
        × HoldsPlanes key.planes.now key.round_keys.now (key.rounds + 1) };
}

impl<'k> KeyRef<'k> {
    /// Creates a key from round keys and the number of rounds, as `expand` writes and returns them, and their planes, as
    /// `write_planes` writes them. Batches take planes of 256 bits if `width` is 256, else planes of 128 bits.
    pub fn new(
        planes: &'k RoundPlanes,
        round_keys: &'k RoundKeys,
        rounds: usize,
        width: u32,
    ) -> Self
        requires schedule { IsSchedule round_keys.now rounds }
        requires planes { HoldsPlanes planes.now round_keys.now (rounds + 1) }
        ensures { result ≡ key_of round_keys.now rounds }
    {
        KeyRef {
            planes,
            round_keys,
            rounds,
            width,
        }
    }

    /// Borrows the round keys, for one block at a time.
    fn as_block_key_ref(&self) -> BlockKeyRef<'k>
        ensures { result ≡ self.now }
    {
        BlockKeyRef::new(self.round_keys, self.rounds)
    }

    /// Computes the header protection mask of a sample (RFC 9001 section 5.4.3): 16 bytes in, 5 bytes out.
    pub fn new_mask(&self, sample: Sample) -> [u8; 5]
        ensures { result ≡ aes_mask self.now sample }
    {
        self.as_block_key_ref().new_mask(sample)
    }
}

impl<'k> EncryptBlock for KeyRef<'k> {
    ghost cipher = { λ key block. aes key block };

    ghost length_cipher = { λ key block _. length_aes key block };

    fn encrypt_block(&self, block: Block, work: &mut Work) -> Block {
        self.as_block_key_ref().encrypt_block(block, work)
    }
}

impl EncryptBlock for Key {
    ghost cipher = { λ key block. aes key block };

    ghost length_cipher = { λ key block _. length_aes key block };

    fn encrypt_block(&self, block: Block, work: &mut Work) -> Block {
        self.as_key_ref().encrypt_block(block, work)
    }
}

impl EncryptCtr32 for Key {
    fn ctr32_encrypt_within(
        &self,
        in_out: Overlapping<'_>,
        counter: &mut Counter,
        work: &mut Work,
    ) {
        let Overlapping { in_out, start } = in_out;
        let in_out = Overlapping::within(in_out, start);
        self.as_key_ref()
            .ctr32_encrypt_within(in_out, counter, work);
    }
}
