//! Keys from secrets and passwords, over SHA-256 and SHA-384: HMAC, HKDF, the keys of TLS 1.3's records and of QUIC versions
//! 1 and 2, and PBKDF2.
//!
//! A `Secret` gives the record keys of one direction of a TLS 1.3 connection and the secret after a KeyUpdate. A
//! `quic::QuicSecret` gives the keys of one direction of a QUIC connection and the secret after a key update. The functions of
//! `hmac`, `hkdf` and `pbkdf2` are generic over the hash function. No function allocates, and none wipes a secret from memory.
#![tactic(auto)]

mod error;
pub mod hash;
pub mod hkdf;
pub mod hmac;
mod keys;
pub mod pbkdf2;
pub mod quic;
mod secret;
mod suite;

pub use error::DerivationError;
pub use keys::{AeadKeyBytes, HeaderKeyBytes, IV_LEN, PacketKeys, QuicKeys, RecordKeys};
pub use secret::Secret;
pub use suite::Suite;
