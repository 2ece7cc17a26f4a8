//! GHASH (SP 800-38D section 6.4) over the blocks of the AAD and the ciphertext. `Context` hashes a whole message.

ghost use Rattle.std.specs.Prelude.{◌≡◌, ℕ, ◌+◌, ◌/◌, List, [], ◌∷◌, ◌++◌, length};
ghost use Rattle.std.specs.Int.{to_be_bytes, w128};
ghost use Rattle.aead_ciphers_base.specs.Blocks.{blocks};
ghost use Rattle.aead_ciphers_base.specs.Work.{Adds, CanAdd};
ghost use Rattle.aead_ciphers.specs.HashOf.{IsHashOf};
ghost use Rattle.aead_ciphers.specs.Multiples.{AreMultiples, entry};

mod context;
mod limits;
mod padding;
mod product;

use aead_ciphers_base::aes::{BLOCK_LEN, Block, Work, ZERO_BLOCK};
use aead_ciphers_base::polyfill::slice::AsChunks;
pub use context::Context;
pub use limits::{MAX_AAD_LEN, MAX_IN_OUT_LEN, fits};
pub use padding::{absorb, lengths};
use std::marker::Model;

/// A hash subkey: the 16-byte block H of SP 800-38D.
#[derive(Drop)]
pub struct KeyValue {
    block: Block,
}

impl Model for KeyValue {
    ghost use Rattle.std.specs.Prelude.{ℕ, List};

    ghost Value = { List ℕ };

    ghost view = { λ value. value.block };
}

impl KeyValue {
    /// Creates a hash subkey from its bytes.
    pub fn new(block: Block) -> Self
        ensures { result ≡ block }
    {
        KeyValue { block }
    }
}

/// The intermediate block of a GHASH: 16 bytes.
#[derive(Drop)]
pub struct Xi {
    block: Block,
}

impl Model for Xi {
    ghost use Rattle.std.specs.Prelude.{ℕ, List};

    ghost Value = { List ℕ };

    ghost view = { λ xi. xi.block };
}

impl Xi {
    /// Returns the GHASH of no blocks.
    #[tactic(auto, unfolding(crate::specs::Ghash::ghash))]
    pub fn zero() -> Self
        ensures { (h : List ℕ) → IsHashOf h [] result }
    {
        Xi { block: ZERO_BLOCK }
    }

    /// Replaces the block, for a hash that is implemented in another crate.
    pub fn set(&mut self, block: Block)
        ensures { self.new ≡ block }
    {
        self.block = block;
    }

    /// Returns the bytes of the block.
    pub fn as_ref(&self) -> &Block
        ensures { result.now ≡ self.now }
    {
        &self.block
    }
}

/// GHASH under a key, block by block.
pub trait UpdateBlock {
    // The hash subkey.
    ghost hash_subkey: { Self → List ℕ };

    /// Updates the hash `xi` with `block`, by one field product.
    fn update_block(&self, xi: &mut Xi, block: Block, work: &mut Work)
        requires { CanAdd work.old 0 1 }
        ensures hashed { (done : List (List ℕ)) → IsHashOf (hash_subkey self.now) done xi.old
            → IsHashOf (hash_subkey self.now) (done ++ block ∷ []) xi.new }
        ensures worked { Adds work.old work.new 0 1 };
}

/// GHASH under a key, many blocks at a time.
pub trait UpdateBlocks: UpdateBlock {
    /// Updates the hash `xi` with the blocks of `input` in order, by one field product each.
    fn update_blocks(&self, xi: &mut Xi, input: AsChunks<'_, u8, BLOCK_LEN>, work: &mut Work)
        requires { CanAdd work.old 0 (length input.items.now / 16) }
        ensures hashed { (done : List (List ℕ)) → IsHashOf (Self.hash_subkey self.now) done xi.old
            → IsHashOf (Self.hash_subkey self.now) (done ++ blocks 16 input.entry.items.now) xi.new }
        ensures worked { Adds work.old work.new 0 (length input.entry.items.now / 16) };
}

/// A key for GHASH: a hash subkey with its multiples.
#[derive(Clone, Drop)]
pub struct Key {
    /// The multiples of the hash subkey (SP 800-38D section 6.3).
    multiples: [u32; 512],
}

impl Model for Key {
    ghost use Rattle.std.specs.Prelude.{ℕ, List};
    ghost use Rattle.std.specs.Int.{to_be_bytes, w128};
    ghost use Rattle.aead_ciphers.specs.Multiples.{AreMultiples, entry};

    ghost Value = { List ℕ };

    ghost view = { λ key. to_be_bytes w128 (entry key.multiples 0) };

    ghost invariant = { λ key.
        AreMultiples (to_be_bytes w128 (entry key.multiples 0)) key.multiples };
}

impl Key {
    /// Creates a key from a hash subkey, and computes the multiples of the subkey.
    pub fn new(value: KeyValue) -> Self
        ensures { result ≡ value }
    {
        let mut multiples = [0; 512];
        expand(&mut multiples, value);
        Key { multiples }
    }

    /// Borrows the key.
    pub(crate) fn as_key_ref(&self) -> KeyRef<'_>
        ensures { result ≡ self.now }
    {
        KeyRef {
            multiples: &self.multiples,
        }
    }
}

/// Writes the multiples of the hash subkey `value` to `multiples`.
pub(crate) fn expand(multiples: &mut [u32; 512], value: KeyValue)
    ensures multiples { AreMultiples (to_be_bytes w128 (entry multiples.new 0)) multiples.new }
    ensures subkey { to_be_bytes w128 (entry multiples.new 0) ≡ value }
{
    product::write_multiples(multiples, number_of_block(value.block));
}

/// A key for GHASH that borrows the multiples of its hash subkey.
#[derive(Drop)]
pub(crate) struct KeyRef<'k> {
    multiples: &'k [u32; 512],
}

impl<'k> Model for KeyRef<'k> {
    ghost use Rattle.std.specs.Prelude.{ℕ, List};
    ghost use Rattle.std.specs.Int.{to_be_bytes, w128};
    ghost use Rattle.aead_ciphers.specs.Multiples.{AreMultiples, entry};

    ghost Value = { List ℕ };

    ghost view = { λ key. to_be_bytes w128 (entry key.multiples.now 0) };

    ghost invariant = { λ key.
        AreMultiples (to_be_bytes w128 (entry key.multiples.now 0)) key.multiples.now };
}

impl<'k> KeyRef<'k> {
    /// Creates a key from the multiples of its hash subkey.
    pub(crate) fn new(multiples: &'k [u32; 512]) -> Self
        requires { AreMultiples (to_be_bytes w128 (entry multiples.now 0)) multiples.now }
        ensures { result ≡ to_be_bytes w128 (entry multiples.now 0) }
    {
        KeyRef { multiples }
    }
}

/// Returns the number whose big-endian bytes are `block`.
fn number_of_block(block: Block) -> u128
    ensures { to_be_bytes w128 result ≡ block }
{
    u128::from_be_bytes(block)
}

impl<'k> UpdateBlock for KeyRef<'k> {
    ghost hash_subkey = { λ key. key };

    fn update_block(&self, xi: &mut Xi, block: Block, work: &mut Work) {
        let sum = number_of_block(xi.block) ^ number_of_block(block);
        xi.block = product::product(self.multiples, sum).to_be_bytes();
        work.add_product();
    }
}

impl<'k> UpdateBlocks for KeyRef<'k> {
    fn update_blocks(&self, xi: &mut Xi, input: AsChunks<'_, u8, BLOCK_LEN>, work: &mut Work) {
        let mut sum = number_of_block(xi.block);
        for block in input {
            sum = product::product(self.multiples, sum ^ number_of_block(*block));
            work.add_product();
        }
        xi.block = sum.to_be_bytes();
    }
}

impl UpdateBlock for Key {
    ghost hash_subkey = { λ key. key };

    fn update_block(&self, xi: &mut Xi, block: Block, work: &mut Work) {
        self.as_key_ref().update_block(xi, block, work);
    }
}

impl UpdateBlocks for Key {
    fn update_blocks(&self, xi: &mut Xi, input: AsChunks<'_, u8, BLOCK_LEN>, work: &mut Work) {
        self.as_key_ref().update_blocks(xi, input, work);
    }
}
