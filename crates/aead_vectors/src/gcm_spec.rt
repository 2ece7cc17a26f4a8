//! D. McGrew and J. Viega, "The Galois/Counter Mode of Operation (GCM)", appendix B: the test cases with a nonce of 12
//! bytes and a key of 16 or 32.

use crate::words::{BadLine, Words};
use aead_ciphers_base::values::{MAX_TAG_LEN, NONCE_LEN};
use std::alloc::Global;

/// A test case.
#[derive(Drop)]
pub struct Case {
    pub name: &'static str,
    pub key: Vec<u8>,
    pub nonce: [u8; NONCE_LEN],
    pub aad: Vec<u8>,
    pub message: Vec<u8>,
    pub ciphertext: Vec<u8>,
    pub tag: [u8; MAX_TAG_LEN],
}

impl Case {
    /// Reads a line: the words are the name, the key, the nonce, the AAD, the plaintext, the ciphertext and the tag.
    pub fn parse(alloc: Global, line: &'static str) -> Result<Case, BadLine> {
        let mut words = Words::new(line);
        let case = Case {
            name: words.text()?,
            key: words.bytes(alloc)?,
            nonce: words.array()?,
            aad: words.bytes(alloc)?,
            message: words.bytes(alloc)?,
            ciphertext: words.bytes(alloc)?,
            tag: words.array()?,
        };
        words.end()?;
        Ok(case)
    }
}

/// Test case 1.
pub const CASE_1: &str =
    "gcm_spec_case_1 00000000000000000000000000000000 000000000000000000000000 - - - 58e2fccefa7e3061367f1d57a4e7455a";

/// Test case 2.
pub const CASE_2: &str =
    "gcm_spec_case_2 00000000000000000000000000000000 000000000000000000000000 - 00000000000000000000000000000000 0388dace60b6a392f328c2b971b2fe78 ab6e47d42cec13bdf53a67b21257bddf";

/// Test case 3.
pub const CASE_3: &str =
    "gcm_spec_case_3 feffe9928665731c6d6a8f9467308308 cafebabefacedbaddecaf888 - d9313225f88406e5a55909c5aff5269a86a7a9531534f7da2e4c303d8a318a721c3c0c95956809532fcf0e2449a6b525b16aedf5aa0de657ba637b391aafd255 42831ec2217774244b7221b784d0d49ce3aa212f2c02a4e035c17e2329aca12e21d514b25466931c7d8f6a5aac84aa051ba30b396a0aac973d58e091473f5985 4d5c2af327cd64a62cf35abd2ba6fab4";

/// Test case 4.
pub const CASE_4: &str =
    "gcm_spec_case_4 feffe9928665731c6d6a8f9467308308 cafebabefacedbaddecaf888 feedfacedeadbeeffeedfacedeadbeefabaddad2 d9313225f88406e5a55909c5aff5269a86a7a9531534f7da2e4c303d8a318a721c3c0c95956809532fcf0e2449a6b525b16aedf5aa0de657ba637b39 42831ec2217774244b7221b784d0d49ce3aa212f2c02a4e035c17e2329aca12e21d514b25466931c7d8f6a5aac84aa051ba30b396a0aac973d58e091 5bc94fbc3221a5db94fae95ae7121a47";

/// Test case 13.
pub const CASE_13: &str =
    "gcm_spec_case_13 0000000000000000000000000000000000000000000000000000000000000000 000000000000000000000000 - - - 530f8afbc74536b9a963b4f1c4cb738b";

/// Test case 14.
pub const CASE_14: &str =
    "gcm_spec_case_14 0000000000000000000000000000000000000000000000000000000000000000 000000000000000000000000 - 00000000000000000000000000000000 cea7403d4d606b6e074ec5d3baf39d18 d0d1c8a799996bf0265b98b5d48ab919";

/// Test case 15.
pub const CASE_15: &str =
    "gcm_spec_case_15 feffe9928665731c6d6a8f9467308308feffe9928665731c6d6a8f9467308308 cafebabefacedbaddecaf888 - d9313225f88406e5a55909c5aff5269a86a7a9531534f7da2e4c303d8a318a721c3c0c95956809532fcf0e2449a6b525b16aedf5aa0de657ba637b391aafd255 522dc1f099567d07f47f37a32a84427d643a8cdcbfe5c0c97598a2bd2555d1aa8cb08e48590dbb3da7b08b1056828838c5f61e6393ba7a0abcc9f662898015ad b094dac5d93471bdec1a502270e3cc6c";

/// Test case 16.
pub const CASE_16: &str =
    "gcm_spec_case_16 feffe9928665731c6d6a8f9467308308feffe9928665731c6d6a8f9467308308 cafebabefacedbaddecaf888 feedfacedeadbeeffeedfacedeadbeefabaddad2 d9313225f88406e5a55909c5aff5269a86a7a9531534f7da2e4c303d8a318a721c3c0c95956809532fcf0e2449a6b525b16aedf5aa0de657ba637b39 522dc1f099567d07f47f37a32a84427d643a8cdcbfe5c0c97598a2bd2555d1aa8cb08e48590dbb3da7b08b1056828838c5f61e6393ba7a0abcc9f662 76fc6ece0f4e1768cddf8853bb2d551b";

/// All of them.
pub const CASES: [&str; 8] = [
    CASE_1, CASE_2, CASE_3, CASE_4, CASE_13, CASE_14, CASE_15, CASE_16,
];

/// Test case 2: the ciphertext.
pub const CASE_2_CIPHERTEXT: [u8; 16] = [
    0x03, 0x88, 0xda, 0xce, 0x60, 0xb6, 0xa3, 0x92, 0xf3, 0x28, 0xc2, 0xb9, 0x71, 0xb2, 0xfe, 0x78,
];

/// Test case 2: the hash subkey.
pub const CASE_2_H: [u8; 16] = [
    0x66, 0xe9, 0x4b, 0xd4, 0xef, 0x8a, 0x2c, 0x3b, 0x88, 0x4c, 0xfa, 0x59, 0xca, 0x34, 0x2b, 0x2e,
];

/// Test case 2: the product of the ciphertext and the hash subkey.
pub const CASE_2_X_1: [u8; 16] = [
    0x5e, 0x2e, 0xc7, 0x46, 0x91, 0x70, 0x62, 0x88, 0x2c, 0x85, 0xb0, 0x68, 0x53, 0x53, 0xde, 0xb7,
];

/// Test case 2: GHASH.
pub const CASE_2_GHASH: [u8; 16] = [
    0xf3, 0x8c, 0xbb, 0x1a, 0xd6, 0x92, 0x23, 0xdc, 0xc3, 0x45, 0x7a, 0xe5, 0xb6, 0xb0, 0xf8, 0x85,
];
