//! Example callers, which `docs/guide/RATTLE.md` quotes. The contract of each is proved from the contracts of the library alone.

pub mod connection;
pub mod messages;
pub mod one_message;
pub mod one_nonce;
pub mod reassembly;
pub mod streams;
