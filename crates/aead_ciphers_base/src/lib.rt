//! The primitives below AES-GCM and QUIC header protection: bit-sliced AES, ChaCha20, the buffers that
//! both work on, and the plain values that calls take and return. Read `values` and `overlapping`
//! first. Programs in Rust take the package `deerlapse`, whose paths the examples have, except for
//! what it doesn't re-export.
// `docs/guide/RATTLE.md` has examples in Rattle.
#![tactic(auto)]

pub mod aes;
pub mod bb;
pub mod chacha;
pub mod error;
pub mod overlapping;
pub mod polyfill;
pub mod shift;
pub mod values;
