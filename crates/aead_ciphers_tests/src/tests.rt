//! The modules of tests, and what they share.

mod aead;
mod aeadrun;
mod aes_gcm;
mod bound_key;
mod callers;
mod cases;
mod checks;
mod counting;
mod errors;
mod example_callers;
mod examples;
mod gcm;
mod laws;
mod loans;
mod masks;
mod other_cipher;
mod quic;
mod refusals;
mod sequences;
mod streams;
