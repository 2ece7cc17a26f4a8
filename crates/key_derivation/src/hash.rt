//! The hash functions under HMAC, SHA-256 and SHA-384, with the lengths of their blocks and digests (FIPS 180-4).

ghost use Rattle.std.proofs.Common.{lit<, lit≤};
ghost use Rattle.std.specs.Prelude.{◌≡◌, ℕ, ◌<◌, ◌≤◌, List, length, refl};
ghost use Rattle.key_derivation.specs.Hash.{HashFunction, sha_256, sha_384};
ghost use Rattle.sha2.proofs.Facts256.{length-sha256};
ghost use Rattle.sha2.proofs.Facts512.{length-sha384};

use sha2::{Digest, Sha256, Sha384};
use std::convert::AsSlice;

/// The length of the longest block in bytes, that of SHA-384.
pub(crate) const MAX_BLOCK_LEN: usize = 128;

/// The length of the longest digest in bytes, that of SHA-384.
pub(crate) const MAX_OUTPUT_LEN: usize = 48;

/// A hash function with its lengths: SHA-256 or SHA-384.
pub trait Hash: Digest<Output: AsSlice<u8> + Drop> {
    // The hash function.
    ghost function: { HashFunction };

    ghost BLOCK_LEN: { ℕ };

    /// The length of a block in bytes.
    const BLOCK_LEN: usize;

    ghost OUTPUT_LEN: { ℕ };

    /// The length of a digest in bytes.
    const OUTPUT_LEN: usize;

    /// Returns a second hasher, which has absorbed the same message.
    fn fork(&self) -> Self
        ensures { (m : List ℕ) → Self.holds self.now m → Self.holds result m };

    // The digest is that of the function.
    ghost digest_is: { (m : List ℕ) (d : Self.Output) → Self.digest_of m d → Self.Output.items d ≡ function.hash m };

    // The lengths are those of the function.
    ghost block_len: { function.block_len ≡ BLOCK_LEN };

    ghost output_len: { function.output_len ≡ OUTPUT_LEN };

    ghost digest_len: { (m : List ℕ) → length (function.hash m) ≡ OUTPUT_LEN };

    ghost some_output: { 0 < OUTPUT_LEN };

    ghost short_output: { OUTPUT_LEN ≤ 48 };

    ghost short_block: { BLOCK_LEN ≤ 128 };

    ghost output_fits: { OUTPUT_LEN ≤ BLOCK_LEN };
}

impl Hash for Sha256 {
    ghost function = { sha_256 };

    ghost BLOCK_LEN = { 64 };

    const BLOCK_LEN: usize = 64;

    ghost OUTPUT_LEN = { 32 };

    const OUTPUT_LEN: usize = 32;

    ghost digest_is = { λ m d e. e };

    ghost block_len = { refl };

    ghost output_len = { refl };

    ghost digest_len = { length-sha256 };

    ghost some_output = { lit< tt };

    ghost short_output = { lit≤ tt };

    ghost short_block = { lit≤ tt };

    ghost output_fits = { lit≤ tt };

    fn fork(&self) -> Sha256 {
        match self.clone() {
            Ok(hasher) => hasher,
            Err(_) => unreachable!(),
        }
    }
}

impl Hash for Sha384 {
    ghost function = { sha_384 };

    ghost BLOCK_LEN = { 128 };

    const BLOCK_LEN: usize = 128;

    ghost OUTPUT_LEN = { 48 };

    const OUTPUT_LEN: usize = 48;

    ghost digest_is = { λ m d e. e };

    ghost block_len = { refl };

    ghost output_len = { refl };

    ghost digest_len = { length-sha384 };

    ghost some_output = { lit< tt };

    ghost short_output = { lit≤ tt };

    ghost short_block = { lit≤ tt };

    ghost output_fits = { lit≤ tt };

    fn fork(&self) -> Sha384 {
        match self.clone() {
            Ok(hasher) => hasher,
            Err(_) => unreachable!(),
        }
    }
}
