//! Loops over the library's calls, which `bench/bench.c` times beside other implementations.
//!
//! Each loop takes a number of turns, a key and a buffer, works on the buffer in place if the call does, and returns eight
//! bytes of its output, so that both sides can be compared. If the key or the buffer is not of a length that the call takes,
//! the loop makes no turn.
//!
//! `ciphers` has the loops over the keys of `aead_ciphers` and of `aead_ciphers_wide`, `packets` those over QUIC packets, and
//! `records_of_tls` those over records of TLS.
#![tactic(auto)]

mod ciphers;
mod keys;
mod packets;
mod records_of_tls;

use aead_ciphers::aead::Nonce;

pub(crate) const NONCE: [u8; 12] = [1; 12];

pub(crate) fn nonce() -> Nonce {
    Nonce::assume_unique_for_key(NONCE)
}

/// The first eight bytes, or 0 if there are fewer.
pub(crate) fn first_bytes(bytes: &[u8]) -> u64 {
    match bytes.first_chunk::<8>() {
        Some(first) => u64::from_le_bytes(*first),
        None => 0,
    }
}

/// Writes a number to the first eight bytes.
pub(crate) fn set_first_bytes(bytes: &mut [u8], number: u64) {
    if let Some(first) = bytes.first_chunk_mut::<8>() {
        *first = number.to_le_bytes();
    }
}
