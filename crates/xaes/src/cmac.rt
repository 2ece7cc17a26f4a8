//! The derivation of keys by CMAC (SP 800-38B) over AES-256 in counter mode (SP 800-108r1).

ghost use Rattle.std.specs.Prelude.{◌≡◌, ◌++◌};
ghost use Rattle.aead_ciphers_base.specs.Aes.{aes};
ghost use Rattle.aead_ciphers_base.specs.Bytes.{zero_block};
ghost use Rattle.xaes.specs.Derivation.{cmac_of_block, derived_block, derived_key, first_subkey};

use aead_ciphers_base::aes::{AES_256_KEY_LEN, BLOCK_LEN, Block, EncryptBlock, Work, ZERO_BLOCK};
use aead_ciphers_base::bb;
use aead_ciphers_wide::aes::BlockKeyRef;
use std::marker::Model;

/// The length in bytes of the context that a key is derived for.
pub const CONTEXT_LEN: usize = 12;

/// The context that a key is derived for: the first 12 bytes of a nonce.
pub type Context = [u8; CONTEXT_LEN];

/// The label of the derivation.
const LABEL: u8 = b'X';

/// R of SP 800-38B section 5.3, as a number: 10000111.
const R: u128 = 0x87;

/// Returns the first subkey K1 of CMAC, given the encrypted zero block (SP 800-38B section 6.1).
fn subkey_of(cipher_of_zero: Block) -> Block
    ensures { result ≡ first_subkey cipher_of_zero }
{
    let number = u128::from_be_bytes(cipher_of_zero);
    let fell_out = number >> 127;
    ((number << 1) ^ (fell_out * R)).to_be_bytes()
}

/// Returns the first subkey K1 of CMAC under the key of this cipher.
pub(crate) fn first_subkey(cipher: &BlockKeyRef<'_>) -> Block
    ensures { result ≡ first_subkey (aes cipher.now zero_block) }
{
    subkey_of(cipher.encrypt_block(ZERO_BLOCK, &mut Work::new()))
}

/// CMAC under an AES-256 key that is borrowed: the key's cipher, and the first subkey.
#[derive(Drop)]
pub(crate) struct Cmac<'k> {
    cipher: BlockKeyRef<'k>,
    subkey: Block,
}

impl<'k> Model for Cmac<'k> {
    ghost use Rattle.std.specs.Prelude.{ℕ, List, ◌≡◌};
    ghost use Rattle.aead_ciphers_base.specs.Aes.{aes};
    ghost use Rattle.aead_ciphers_base.specs.Bytes.{zero_block};
    ghost use Rattle.xaes.specs.Derivation.{first_subkey};

    ghost Value = { List ℕ };

    ghost view = { λ cmac. cmac.cipher };

    ghost invariant = { λ cmac. cmac.subkey ≡ first_subkey (aes cmac.cipher zero_block) };
}

impl<'k> Cmac<'k> {
    /// Creates CMAC under the key of `cipher`, whose first subkey is `subkey`.
    pub(crate) fn new(cipher: BlockKeyRef<'k>, subkey: Block) -> Self
        requires { subkey ≡ first_subkey (aes cipher zero_block) }
        ensures { result ≡ cipher.entry }
    {
        Cmac { cipher, subkey }
    }

    /// Computes CMAC of a message of one block (SP 800-38B section 6.2).
    #[tactic(auto, unfolding(crate::specs::Derivation::cmac_of_block))]
    fn mac_of_block(&self, block: Block) -> Block
        ensures { result ≡ cmac_of_block self.now block }
    {
        self.cipher
            .encrypt_block(bb::xor_16(self.subkey, block), &mut Work::new())
    }

    /// Returns one iteration of the derivation (SP 800-108r1 section 4.1), 16 bytes.
    fn derived_block(&self, context: &Context, iteration: u16) -> Block
        ensures { result ≡ derived_block self.now context.now iteration }
    {
        let [i0, i1] = iteration.to_be_bytes();
        let [c0, c1, c2, c3, c4, c5, c6, c7, c8, c9, c10, c11] = *context;
        self.mac_of_block([
            i0, i1, LABEL, 0, c0, c1, c2, c3, c4, c5, c6, c7, c8, c9, c10, c11,
        ])
    }

    /// Returns two iterations of the derivation, 16 bytes each, concatenated.
    pub(crate) fn derived_blocks(
        &self,
        context: &Context,
        first: u16,
        second: u16,
    ) -> [u8; AES_256_KEY_LEN]
        ensures { result ≡ derived_block self.now context.now first ++ derived_block self.now context.now second }
    {
        let mut bytes = [0; AES_256_KEY_LEN];
        let (front, back) = bytes.split_at_mut(BLOCK_LEN);
        front.copy_from_slice(&self.derived_block(context, first));
        back.copy_from_slice(&self.derived_block(context, second));
        bytes
    }

    /// Returns the key that XAES-256-GCM derives for this context, by iterations 1 and 2.
    pub(crate) fn derived_key(&self, context: &Context) -> [u8; AES_256_KEY_LEN]
        ensures { result ≡ derived_key self.now context.now }
    {
        self.derived_blocks(context, 1, 2)
    }
}
