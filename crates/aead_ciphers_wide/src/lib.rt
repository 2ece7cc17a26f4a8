//! AES-GCM (SP 800-38D) and header masks (RFC 9001 section 5.4.3): AES on eight or sixteen blocks a pass, and on few blocks by
//! byte permutes, and GHASH by byte permutes.
//!
//! Read `aead` first, whose keys have calls of the keys of `aead_ciphers::aead`. `aes_gcm` has their expanded key, and
//! `aes` and `gcm` implement the traits that `aead_ciphers::aes_gcm` seals and opens by. Programs in Rust take the package
//! `deerlapse`, whose paths the examples have.
// `docs/guide/RATTLE.md` has examples in Rattle.
#![tactic(auto)]

pub mod aead;
pub mod aes;
pub mod aes_gcm;
pub mod gcm;
mod lanes;
mod permute;
mod word;
