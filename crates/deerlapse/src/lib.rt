//! The library's calls for C, C++ and plain Rust, as a static library. The header `include/deerlapse.h` declares them.
//!
//! A slice is a pointer and then a length in C. No call allocates memory or keeps a pointer. A call that returns false leaves
//! every byte unchanged, except that `deerlapse_key_init` then fills the key with zeros.
//!
//! The assembly for one processor differs in source from that for another only in the width of the planes of each key, which
//! `key::width` returns. A call takes a key of either width.
#![tactic(auto)]

mod aes_gcm;
mod chacha20;
mod header_key;
mod hkdf;
mod key;
mod masks;
mod numbered_key;
mod opener;
mod out_of_place;
mod pieces;
mod quic_key;
mod record_key;
mod sealer;
#[cfg(test)]
mod secret_tests;
#[cfg(test)]
mod tests;
mod traffic_key;
mod version;
mod xaes_key;
#[cfg(test)]
mod xaes_key_tests;
