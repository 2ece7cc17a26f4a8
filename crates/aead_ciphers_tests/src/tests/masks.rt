//! Header protection masks (RFC 9001 section 5.4): the first bytes of an AES block or of a ChaCha20 block.

use aead_ciphers::aead::quic;
use aead_vectors::words::{BadLine, Words};
use std::alloc::Global;

/// A key, a sample, and the mask.
#[derive(Drop)]
pub(crate) struct Mask {
    pub(crate) name: &'static str,
    /// The algorithm's word in a line of `aeadrun`.
    pub(crate) word: &'static str,
    pub(crate) key: Vec<u8>,
    pub(crate) sample: Vec<u8>,
    pub(crate) mask: [u8; 5],
}

impl Mask {
    /// Parses a line, whose words are the name, the algorithm, the key, the sample and the mask.
    pub(crate) fn parse(alloc: Global, line: &'static str) -> Result<Mask, BadLine> {
        let mut words = Words::new(line);
        let mask = Mask {
            name: words.text()?,
            word: words.text()?,
            key: words.bytes(alloc)?,
            sample: words.bytes(alloc)?,
            mask: words.array()?,
        };
        words.end()?;
        Ok(mask)
    }

    pub(crate) fn algorithm(&self) -> &'static quic::Algorithm {
        if self.word == "aes128" {
            &quic::AES_128
        } else if self.word == "aes256" {
            &quic::AES_256
        } else {
            &quic::CHACHA20
        }
    }
}

/// The masks of RFC 9001, and masks that are the first bytes of blocks of FIPS 197 and RFC 8439. A sample for ChaCha20 is a
/// block counter and a nonce.
pub(crate) const MASKS: [&str; 6] = [
    "rfc_9001_a_2 aes128 9f50449e04a0e810283a1e9933adedd2 d1b1c98dd7689fb8ec11d242b123dc9b 437b9aec36",
    "rfc_9001_a_5 chacha20 25a282b9e82f06f21f488917a4fc8f1b73573685608597d0efcb076b0ab7a7a4 5e5cd55c41f69080575d7999c25a5bfb aefefe7d03",
    "fips_197_c_1 aes128 000102030405060708090a0b0c0d0e0f 00112233445566778899aabbccddeeff 69c4e0d86a",
    "fips_197_c_3 aes256 000102030405060708090a0b0c0d0e0f101112131415161718191a1b1c1d1e1f 00112233445566778899aabbccddeeff 8ea2b7ca51",
    "rfc_8439_2_3_2 chacha20 000102030405060708090a0b0c0d0e0f101112131415161718191a1b1c1d1e1f 01000000000000090000004a00000000 10f1e7e4d1",
    "rfc_8439_a_1_vector_1 chacha20 0000000000000000000000000000000000000000000000000000000000000000 00000000000000000000000000000000 76b8e0ada0",
];
