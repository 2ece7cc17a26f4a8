//! Messages for tests of AES-GCM: their lengths, and their bytes.

use std::alloc::{AllocError, Global};

/// Lengths around a chunk of 3,072 bytes, around the batch of 256 bytes after it, and around two chunks.
pub const LONG_LENS: [usize; 10] = [3071, 3072, 3073, 3088, 3327, 3328, 3329, 6143, 6144, 6145];

/// Returns each length from 0 to 272, which is a batch and a block, and then those of `LONG_LENS`.
pub fn lens(alloc: Global) -> Result<Vec<usize>, AllocError> {
    let mut lens = Vec::new(alloc);
    for len in 0..=272 {
        lens.push(len)?;
    }
    lens.extend_from_slice(&LONG_LENS)?;
    Ok(lens)
}

/// Returns `len` bytes that repeat the bytes from 0 to 250.
pub fn counting(alloc: Global, len: usize) -> Result<Vec<u8>, AllocError> {
    let mut bytes = Vec::new(alloc);
    for i in 0..len {
        bytes.push((i % 251) as u8)?;
    }
    Ok(bytes)
}
