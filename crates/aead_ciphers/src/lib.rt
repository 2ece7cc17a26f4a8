//! AES-GCM (SP 800-38D) and QUIC header protection (RFC 9001 section 5.4) under ring's names.
//!
//! Read `aead` first, which is the interface for callers. `aes_gcm` and `gcm` are the layers below it. Programs in Rust
//! take the package `deerlapse`, whose paths the examples have.
// `docs/guide/RATTLE.md` has examples in Rattle. The module `aeadrun` has the code of the program of this name.
#![tactic(auto)]

pub mod aead;
pub mod aeadrun;
pub mod aes_gcm;
pub mod gcm;
pub mod laws;
pub mod session;
