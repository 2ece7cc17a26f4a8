//! The modules of tests, and what they share.

mod checks;
mod error;
mod hkdf;
mod hmac;
mod pbkdf2;
mod quic;
mod rfc_4231;
mod secret;
