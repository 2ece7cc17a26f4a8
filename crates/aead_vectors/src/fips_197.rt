//! FIPS 197, "Advanced Encryption Standard (AES)", appendix C: the cipher with a key of 16 or 32 bytes; and section 5.1.1: the S-box.

use crate::words::{BadLine, Words};
use aead_ciphers_base::aes::Block;
use std::alloc::Global;

/// A block and its encryption.
#[derive(Drop)]
pub struct Case {
    pub name: &'static str,
    pub key: Vec<u8>,
    pub plaintext: Block,
    pub ciphertext: Block,
}

impl Case {
    /// Reads a line: the words are the name, the key, the plaintext and the ciphertext.
    pub fn parse(alloc: Global, line: &'static str) -> Result<Case, BadLine> {
        let mut words = Words::new(line);
        let case = Case {
            name: words.text()?,
            key: words.bytes(alloc)?,
            plaintext: words.array()?,
            ciphertext: words.array()?,
        };
        words.end()?;
        Ok(case)
    }
}

/// Appendices C.1 and C.3: AES-128 and AES-256.
pub const CASES: [&str; 2] = [
    "fips_197_c_1 000102030405060708090a0b0c0d0e0f 00112233445566778899aabbccddeeff 69c4e0d86a7b0430d8cdb78070b4c55a",
    "fips_197_c_3 000102030405060708090a0b0c0d0e0f101112131415161718191a1b1c1d1e1f 00112233445566778899aabbccddeeff 8ea2b7ca516745bfeafc49904b496089",
];

/// Section 5.1.1, table 4: the values of the S-box at the bytes from 00 to ff.
pub const S_BOX: &str =
    "637c777bf26b6fc53001672bfed7ab76ca82c97dfa5947f0add4a2af9ca472c0b7fd9326363ff7cc34a5e5f171d8311504c723c31896059a071280e2eb27b27509832c1a1b6e5aa0523bd6b329e32f8453d100ed20fcb15b6acbbe394a4c58cfd0efaafb434d338545f9027f503c9fa851a3408f929d38f5bcb6da2110fff3d2cd0c13ec5f974417c4a77e3d645d197360814fdc222a908846eeb814de5e0bdbe0323a0a4906245cc2d3ac629195e479e7c8376d8dd54ea96c56f4ea657aae08ba78252e1ca6b4c6e8dd741f4bbd8b8a703eb5664803f60e613557b986c11d9ee1f8981169d98e949b1e87e9ce5528df8ca1890dbfe6426841992d0fb054bb16";
