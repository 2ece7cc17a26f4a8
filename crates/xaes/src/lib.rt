//! XAES-256-GCM (a specification of C2SP, <https://c2sp.org/XAES-256-GCM>): AES-256-GCM with nonces of 24 bytes, which are long
//! enough to be drawn at random for each message.
//!
//! Read `Xaes256Gcm` first. `ExpandedKey` is the same key as plain data. Programs in Rust take the package `deerlapse`, whose
//! paths the examples have.
// `docs/guide/RATTLE.md` has an example in Rattle.
#![tactic(auto)]

mod cmac;
mod expanded;
mod key;
mod nonce;

pub use cmac::{CONTEXT_LEN, Context};
pub use expanded::ExpandedKey;
pub use key::Xaes256Gcm;
pub use nonce::{XAES_NONCE_LEN, XNonce};
