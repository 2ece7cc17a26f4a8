//! The modules of tests, and what they share.

mod aes;
mod both_keys;
mod cases;
mod checks;
mod example_callers;
mod examples;
mod gcm;
mod keys;
mod plain_key;
mod quic;
mod session;
