//! An expanded key that is of neither library.

ghost use Rattle.std.specs.Prelude.{◌≡◌, IsOk, IfOk};

use aead_ciphers::aes_gcm::{GcmKey, open_to_with, open_with, seal_with};
use aead_ciphers::gcm::{self, KeyValue};
use aead_ciphers_base::aes::{self, Block, EncryptBlock, KeyBytes, Work, ZERO_BLOCK};
use aead_ciphers_base::error::Unspecified;
use aead_ciphers_base::values::{Aad, Nonce, Tag};
use std::ops::RangeFrom;
use test_support::one_block::OneBlock;

/// The bytes of a key and its hash subkey. Each call expands them, and encrypts one block at a time.
#[derive(Clone, Drop)]
pub(crate) struct PlainKey {
    bytes: [u8; 32],
    len: usize,
    subkey: Block,
}

impl PlainKey {
    ghost use Rattle.std.specs.Prelude.{◌⊎◌, take};

    /// Expands the AES key.
    fn aes(&self) -> Result<aes::Key, Unspecified>
        requires { (self.now.len ≡ 16) ⊎ (self.now.len ≡ 32) }
        ensures accepted { IsOk result }
        ensures made { IfOk result (λ key. key ≡ take self.now.len self.now.bytes) }
    {
        aes::Key::new(KeyBytes::from_slice(&self.bytes[..self.len])?)
    }

    /// Makes the table of the hash subkey.
    fn gcm(&self) -> gcm::Key
        ensures { result ≡ self.now.subkey }
    {
        gcm::Key::new(KeyValue::new(self.subkey))
    }
}

impl GcmKey for PlainKey {
    ghost use Rattle.std.specs.Prelude.{◌≡◌, ◌⊎◌, replicate, take};
    ghost use Rattle.std.proofs.Common.{rules};
    ghost use Rattle.aead_ciphers_base.specs.Aes.{aes};
    ghost use Rattle.aead_ciphers_base.specs.Bytes.{zero_block};

    ghost bytes_of = { λ key. take key.len key.bytes };

    ghost is_expanded = { λ key. ((key.len ≡ 16) ⊎ (key.len ≡ 32))
        × (key.subkey ≡ aes (take key.len key.bytes) zero_block) };

    ghost zero_key = { record { bytes = replicate 32 0; len = 0; subkey = zero_block } };

    ghost clones = { λ key clone is. Prim.search rules };

    ghost always_clones = { λ key. Prim.search rules };

    fn zeros() -> Self {
        PlainKey {
            bytes: [0; 32],
            len: 0,
            subkey: ZERO_BLOCK,
        }
    }

    fn expand(&mut self, bytes: KeyBytes<'_>, work: &mut Work) {
        let slice = bytes.as_slice();
        self.len = slice.len();
        self.bytes[..self.len].copy_from_slice(slice);
        self.subkey = match aes::Key::new(bytes) {
            Ok(key) => key.encrypt_block(ZERO_BLOCK, work),
            Err(_) => unreachable!(),
        };
    }

    fn seal(
        &self,
        nonce: Nonce,
        aad: Aad<'_>,
        in_out: &mut [u8],
        work: &mut Work,
    ) -> Result<Tag, Unspecified> {
        let aes = self.aes()?;
        let cipher = OneBlock { cipher: &aes };
        seal_with(&cipher, &self.gcm(), nonce, aad, in_out, work)
    }

    fn open(
        &self,
        nonce: Nonce,
        aad: Aad<'_>,
        received_tag: Tag,
        in_out: &mut [u8],
        src: RangeFrom<usize>,
        work: &mut Work,
    ) -> Result<usize, Unspecified> {
        let aes = self.aes()?;
        let cipher = OneBlock { cipher: &aes };
        open_with(
            &cipher,
            &self.gcm(),
            nonce,
            aad,
            received_tag,
            in_out,
            src,
            work,
        )
    }

    fn open_to(
        &self,
        nonce: Nonce,
        aad: Aad<'_>,
        received_tag: Tag,
        ciphertext: &[u8],
        out: &mut [u8],
        work: &mut Work,
    ) -> Result<(), Unspecified> {
        let aes = self.aes()?;
        let cipher = OneBlock { cipher: &aes };
        open_to_with(
            &cipher,
            &self.gcm(),
            nonce,
            aad,
            received_tag,
            ciphertext,
            out,
            work,
        )
    }
}
