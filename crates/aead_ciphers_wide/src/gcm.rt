//! GHASH (SP 800-38D section 6.4) by byte permutes, over tables of 512 bytes. Many blocks are hashed two at a time:
//! (X + A) H + B, times H, is the sum of X + A times H^2 and of B times H.

ghost use Rattle.std.specs.Prelude.{◌≡◌};
ghost use Rattle.std.specs.Int.{to_be_bytes, w128};
ghost use Rattle.aead_ciphers_wide.specs.Products.{ArePowers, subkey};

mod product;

use aead_ciphers::gcm::{UpdateBlock, UpdateBlocks, Xi};
use aead_ciphers_base::aes::{BLOCK_LEN, Block, Work};
use aead_ciphers_base::polyfill::slice::AsChunks;
use std::marker::Model;
use std::simd::u8x16;

/// The length of two blocks.
const PAIR_LEN: usize = 2 * BLOCK_LEN;

/// A key for GHASH: a hash subkey with its products.
#[derive(Clone, Drop)]
pub struct Key {
    /// The products of the hash subkey (SP 800-38D section 6.3).
    products: [u8; 512],
    /// The products of its square.
    squares: [u8; 512],
}

impl Model for Key {
    ghost use Rattle.std.specs.Prelude.{ℕ, List};
    ghost use Rattle.aead_ciphers_wide.specs.Products.{ArePowers, subkey};

    ghost Value = { List ℕ };

    ghost view = { λ key. subkey key.products };

    ghost invariant = { λ key.
        ArePowers key.products key.squares };
}

impl Key {
    /// Creates a key from a hash subkey, and computes the products of the subkey.
    pub fn new(block: Block) -> Self
        ensures { result ≡ block }
    {
        let mut products = [0; 512];
        let mut squares = [0; 512];
        expand(&mut products, &mut squares, block);
        Key { products, squares }
    }

    /// Borrows the key.
    pub fn as_key_ref(&self) -> KeyRef<'_>
        ensures { result ≡ self.now }
    {
        KeyRef {
            products: &self.products,
            squares: &self.squares,
        }
    }
}

/// Writes the products of the hash subkey `block` to `products`, and those of its square to `squares`.
pub fn expand(products: &mut [u8; 512], squares: &mut [u8; 512], block: Block)
    ensures products { ArePowers products.new squares.new }
    ensures subkey { subkey products.new ≡ block }
{
    product::write_products(products, number_of_block(block));
    let square = product::product(products, u8x16::from_array(block));
    product::write_products(squares, number_of_block(square.to_array()));
}

/// Returns the number whose big-endian bytes are `block`.
fn number_of_block(block: Block) -> u128
    ensures { to_be_bytes w128 result ≡ block }
{
    u128::from_be_bytes(block)
}

/// A key for GHASH that borrows the products of its hash subkey and of the square of it.
#[derive(Drop)]
pub struct KeyRef<'k> {
    products: &'k [u8; 512],
    squares: &'k [u8; 512],
}

impl<'k> Model for KeyRef<'k> {
    ghost use Rattle.std.specs.Prelude.{ℕ, List};
    ghost use Rattle.aead_ciphers_wide.specs.Products.{ArePowers, subkey};

    ghost Value = { List ℕ };

    ghost view = { λ key. subkey key.products.now };

    ghost invariant = { λ key.
        ArePowers key.products.now key.squares.now };
}

impl<'k> KeyRef<'k> {
    /// Creates a key from the products of its hash subkey and of the square of it.
    pub fn new(products: &'k [u8; 512], squares: &'k [u8; 512]) -> Self
        requires { ArePowers products.now squares.now }
        ensures { result ≡ subkey products.now }
    {
        KeyRef { products, squares }
    }
}

impl<'k> UpdateBlock for KeyRef<'k> {
    ghost hash_subkey = { λ key. key };

    fn update_block(&self, xi: &mut Xi, block: Block, work: &mut Work) {
        let sum = product::add(u8x16::from_array(*xi.as_ref()), u8x16::from_array(block));
        xi.set(product::product(self.products, sum).to_array());
        work.add_product();
    }
}

impl<'k> UpdateBlocks for KeyRef<'k> {
    fn update_blocks(&self, xi: &mut Xi, input: AsChunks<'_, u8, BLOCK_LEN>, work: &mut Work) {
        let (products, squares) = (self.products, self.squares);
        let mut sum = u8x16::from_array(*xi.as_ref());
        let mut rest = input.as_flattened();
        while let Some((pair, after)) = rest.split_first_chunk::<PAIR_LEN>() {
            let first = product::add(sum, u8x16::from_slice(&pair[..BLOCK_LEN]));
            let second = u8x16::from_slice(&pair[BLOCK_LEN..]);
            sum = product::ghash_pair(products, squares, first, second);
            work.add_product();
            work.add_product();
            rest = after;
        }
        if let Some(last) = rest.first_chunk::<BLOCK_LEN>() {
            let last = product::add(sum, u8x16::from_array(*last));
            sum = product::product(self.products, last);
            work.add_product();
        }
        xi.set(sum.to_array());
    }
}

impl UpdateBlock for Key {
    ghost hash_subkey = { λ key. key };

    fn update_block(&self, xi: &mut Xi, block: Block, work: &mut Work) {
        self.as_key_ref().update_block(xi, block, work);
    }
}

impl UpdateBlocks for Key {
    fn update_blocks(&self, xi: &mut Xi, input: AsChunks<'_, u8, BLOCK_LEN>, work: &mut Work) {
        self.as_key_ref().update_blocks(xi, input, work);
    }
}
