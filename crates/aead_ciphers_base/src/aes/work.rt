//! Tallies of cipher blocks and field products, so that a contract can say how much a call computes.

ghost use Rattle.std.specs.Prelude.{◌≡◌, ◌↔◌, IsTrue};
ghost use Rattle.aead_ciphers_base.specs.Work.{Adds, CanAdd, HasRoom};

use std::marker::Model;

/// Two 64-bit tallies: of cipher blocks whose output was used, and of field products (SP 800-38D
/// section 6.3). They let contracts state how much a call computes. A caller that doesn't need the
/// numbers passes `&mut Work::new()`.
///
/// Each tally must stay below 2^64. If `has_room` returns `true`, both do in the next call that seals
/// or opens. In Rust nothing checks this, and a larger sum panics or wraps around.
///
/// # Examples
///
/// ```
/// use deerlapse::aead::{Aad, Nonce, Unspecified};
/// use deerlapse::aes_gcm::{ExpandedKey, GcmKey, KeyBytes, Work};
///
/// let mut key = ExpandedKey::zeros();
/// key.expand(KeyBytes::AES_128(&[7; 16]), &mut Work::new()); // not a real key
///
/// let mut work = Work::new();
/// let nonce = Nonce::assume_unique_for_key([1; 12]);
/// let _tag = key.seal(nonce, Aad::empty(), &mut [2; 32], &mut work)?;
/// assert_eq!(work.blocks(), 3); // two of the message, and one of the tag
/// assert_eq!(work.products(), 3); // two of the ciphertext, and one of the lengths
/// # Ok::<(), Unspecified>(())
/// ```
#[derive(Drop)]
pub struct Work {
    blocks: u64,
    products: u64,
}

impl Model for Work {
    ghost use Rattle.aead_ciphers_base.specs.Work.{Tallies};

    ghost Value = { Tallies };

    ghost view = { λ work. record { blocks = work.blocks; products = work.products } };
}

impl Work {
    /// Creates two tallies of zero.
    pub fn new() -> Self
        ensures { result ≡ record { blocks = 0; products = 0 } }
    {
        Work {
            blocks: 0,
            products: 0,
        }
    }

    /// Returns the number of cipher blocks that were counted.
    pub fn blocks(&self) -> u64
        ensures { result ≡ self.now.blocks }
    {
        self.blocks
    }

    /// Returns the number of field products that were counted.
    pub fn products(&self) -> u64
        ensures { result ≡ self.now.products }
    {
        self.products
    }

    /// Returns `true` if both tallies are at most 2^62.
    pub fn has_room(&self) -> bool
        ensures { IsTrue result ↔ HasRoom self.now }
    {
        self.blocks <= 1 << 62 && self.products <= 1 << 62
    }

    /// Counts one field product.
    pub fn add_product(&mut self)
        requires { CanAdd self.old 0 1 }
        ensures { Adds self.old self.new 0 1 }
    {
        self.products += 1;
    }

    /// Counts one cipher block.
    pub fn add_block(&mut self)
        requires { CanAdd self.old 1 0 }
        ensures { Adds self.old self.new 1 0 }
    {
        self.blocks += 1;
    }

    /// Counts `count` cipher blocks.
    pub fn add_blocks(&mut self, count: u64)
        requires { CanAdd self.old count 0 }
        ensures { Adds self.old self.new count 0 }
    {
        self.blocks += count;
    }
}
