//! SP 800-38A, "Recommendation for Block Cipher Modes of Operation", appendix F: AES-128 and AES-256.

use crate::words::{BadLine, Words};
use aead_ciphers_base::aes::Block;
use std::alloc::Global;

/// Appendices F.1.1 and F.1.5, the electronic codebook mode: a line for each block, as `fips_197::Case` reads it.
pub const ECB: [&str; 8] = [
    "sp_800_38a_f_1_1_block_1 2b7e151628aed2a6abf7158809cf4f3c 6bc1bee22e409f96e93d7e117393172a 3ad77bb40d7a3660a89ecaf32466ef97",
    "sp_800_38a_f_1_1_block_2 2b7e151628aed2a6abf7158809cf4f3c ae2d8a571e03ac9c9eb76fac45af8e51 f5d3d58503b9699de785895a96fdbaaf",
    "sp_800_38a_f_1_1_block_3 2b7e151628aed2a6abf7158809cf4f3c 30c81c46a35ce411e5fbc1191a0a52ef 43b1cd7f598ece23881b00e3ed030688",
    "sp_800_38a_f_1_1_block_4 2b7e151628aed2a6abf7158809cf4f3c f69f2445df4f9b17ad2b417be66c3710 7b0c785e27e8ad3f8223207104725dd4",
    "sp_800_38a_f_1_5_block_1 603deb1015ca71be2b73aef0857d77811f352c073b6108d72d9810a30914dff4 6bc1bee22e409f96e93d7e117393172a f3eed1bdb5d2a03c064b5a7e3db181f8",
    "sp_800_38a_f_1_5_block_2 603deb1015ca71be2b73aef0857d77811f352c073b6108d72d9810a30914dff4 ae2d8a571e03ac9c9eb76fac45af8e51 591ccb10d410ed26dc5ba74a31362870",
    "sp_800_38a_f_1_5_block_3 603deb1015ca71be2b73aef0857d77811f352c073b6108d72d9810a30914dff4 30c81c46a35ce411e5fbc1191a0a52ef b6ed21b99ca6f4f9f153e7b1beafed1d",
    "sp_800_38a_f_1_5_block_4 603deb1015ca71be2b73aef0857d77811f352c073b6108d72d9810a30914dff4 f69f2445df4f9b17ad2b417be66c3710 23304b7a39f9f3ff067d8d8f9e24ecc7",
];

/// A message and its encryption in counter mode.
#[derive(Drop)]
pub struct CtrCase {
    pub name: &'static str,
    pub key: Vec<u8>,
    /// The initial counter block.
    pub counter: Block,
    pub plaintext: Vec<u8>,
    pub ciphertext: Vec<u8>,
}

impl CtrCase {
    /// Reads a line: the words are the name, the key, the initial counter block, the plaintext and the ciphertext.
    pub fn parse(alloc: Global, line: &'static str) -> Result<CtrCase, BadLine> {
        let mut words = Words::new(line);
        let case = CtrCase {
            name: words.text()?,
            key: words.bytes(alloc)?,
            counter: words.array()?,
            plaintext: words.bytes(alloc)?,
            ciphertext: words.bytes(alloc)?,
        };
        words.end()?;
        Ok(case)
    }
}

/// Appendices F.5.1 and F.5.5: counter mode. The counter doesn't carry out of the last four bytes of its block.
pub const CTR: [&str; 2] = [
    "sp_800_38a_f_5_1 2b7e151628aed2a6abf7158809cf4f3c f0f1f2f3f4f5f6f7f8f9fafbfcfdfeff 6bc1bee22e409f96e93d7e117393172aae2d8a571e03ac9c9eb76fac45af8e5130c81c46a35ce411e5fbc1191a0a52eff69f2445df4f9b17ad2b417be66c3710 874d6191b620e3261bef6864990db6ce9806f66b7970fdff8617187bb9fffdff5ae4df3edbd5d35e5b4f09020db03eab1e031dda2fbe03d1792170a0f3009cee",
    "sp_800_38a_f_5_5 603deb1015ca71be2b73aef0857d77811f352c073b6108d72d9810a30914dff4 f0f1f2f3f4f5f6f7f8f9fafbfcfdfeff 6bc1bee22e409f96e93d7e117393172aae2d8a571e03ac9c9eb76fac45af8e5130c81c46a35ce411e5fbc1191a0a52eff69f2445df4f9b17ad2b417be66c3710 601ec313775789a5b7a7f504bbf3d228f443e3ca4d62b59aca84e990cacaf5c52b0930daa23de94ce87017ba2d84988ddfc9c58db67aada613c2dd08457941a6",
];
